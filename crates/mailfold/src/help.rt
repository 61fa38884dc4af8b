//! The texts of the help.

/// What the program is, in a line.
pub const SHORT_ABOUT: &str = "Keeps folders of mail in sync across machines";

/// What the program is.
pub const ABOUT: &str = "Keeps folders of mail in sync across machines.

A folder is a Maildir, as mutt, aerc, notmuch and Dovecot read it. Each machine has one; two of them talk
over any two pipes, such as ssh's. New mail, moved mail, flags and deletions go both ways. What you changed on
both sides is joined, and mail that leaves a folder's filter is taken from there and from nowhere else.";

/// What stands behind the help of the program.
pub const AFTER: &str = "First use:
  $ mailfold init Mail --id 0 && mailfold scan Mail      on the office machine, which has mail
  $ mailfold init Mail --id 1                            on the laptop: another number, and no scan
  $ mailfold-sync Mail ssh office mailfold serve Mail    on the laptop; twice, if it had mail too

Exit status:
  0  all was done
  1  a fault, told on standard error as `mailfold: TEXT`
  2  a wrong command line
  3  a sync was cut short: what came stands, and the next sync goes on
  4  the folder is in use by another mailfold

The page docs/MAILFOLD.md says what is done for each mail, and what to do about each fault.";

pub const INIT_ABOUT: &str = "Makes a Maildir a folder that can be synced.

DIR is a Maildir; where there is none, an empty one is made. What the program keeps lies below DIR/.mailfold.
No mail is touched: the mail that stands there is taken at the first scan or sync.";

pub const INIT_AFTER: &str =
    "FILTER says which mail the folder has. It is `none`, or clauses joined by ` | `. A clause is `all`, or
conditions joined by ` & `: label:L, !label:L, flag:F, !flag:F and since:YYYY-MM-DD. A label is a folder as
`ls` prints it (`inbox` for the Maildir itself), a flag one of seen, answered, flagged, draft and deleted. One
folder of those that sync has to have `all`, which is what you get with no --filter.

Example:
  $ mailfold init Mail --id 1 --filter 'label:inbox & since:2026-01-01 | flag:flagged'";

pub const SCAN_ABOUT: &str = "Takes what other programs changed in the Maildir.

New, changed and deleted mail is noted, for the next sync to tell. A sync scans too where some file came, went
or was renamed: this is for those who want to see what it would do, to let it delete more than it does unasked,
or to have mail found that a program edited in place.";

pub const SCAN_AFTER: &str =
    "Where more mails are missing than 20 and than a tenth of all, nothing is done: somebody may have moved
the Maildir away. Let it delete them by --most-deletions.";

pub const SYNC_ABOUT: &str = "Syncs the folder with the one that talks on standard input and output.

It scans, talks, and shows in the Maildir what came. `mailfold-sync DIR COMMAND..` joins it with a command
that serves the other folder, and `mailfold-sync DIR NAME` with that of a line `NAME COMMAND` of the file
DIR/.mailfold/peers.

While it runs, a terminal is shown how many versions and files went and came so far.";

pub const SERVE_ABOUT: &str = "Serves the folder to a sync, on standard input and output.

It does what `sync` does, and lets the other side begin. It is what the command of `mailfold-sync` runs.";

pub const EXPIRE_ABOUT: &str =
    "Lets the files of deleted mail go, which the folder keeps in DIR/.mailfold/files so that it can be had back.

It is of mail whose deletion a scan or a sync has taken, and of this folder alone. What the log tells of the
mail stays, and no sync brings the file, unless the mail is changed elsewhere and so is there again.";

pub const EXPIRE_AFTER: &str =
    "By --older the files stay that lost their place in the Maildir fewer than DAYS times 24 hours ago. It goes by
the file's own time (ctime), which is set when a path of the file goes: so a folder that was copied or restored
counts from then on. A mail that another program moved by writing it once more counts from that move, and where
the file system has no hard links, from when it came.

Example:
  $ mailfold expire Mail --older 30";

pub const RENEW_ABOUT: &str = "Makes the folder a new replica, with another number and an empty log.

It is for a folder that was copied or restored from a backup, whose log is full or damaged, or that is to have
another filter. The mail stays as it is, and the old log is kept: as DIR/.mailfold/log.1, or the first such
name that is free.";

pub const RENEW_AFTER: &str =
    "Let this folder begin its next sync, before any scan. That sync first takes what the other side has, so mail
that both have is known and no mail is announced twice; the sync after it tells what only this folder has.
What both have is joined: a flag or a folder that a mail has on either side, it has then on both, and mail
that was deleted on one side alone since their last sync is back.

FILTER is written as for `init`. It has to be given where the old log can't be read.

Example:
  $ mailfold renew Mail --id 7
  $ mailfold-sync Mail ssh office mailfold serve Mail";

pub const MOVED_ABOUT: &str = "Says that the folder was moved here, and not copied.

The log knows its file and the machine. Where one of them differs, as after a folder was moved to another
disk or a disk was put into another machine, each command ends with `copied or restored`. This one notes
where the log is now, and the folder goes on as the replica that it was.";

pub const MOVED_AFTER: &str =
    "Say so only where the folder isn't in use anywhere else any more, and where this is all of it. Of a copy that
goes on beside the other one, and of what came back from a backup, make a new replica: `mailfold renew`. Else
two mails may get one version, and one of them may be taken for the other on each machine.

Example:
  $ rsync -aH Mail/ /media/new/Mail/ && rm -r Mail
  $ mailfold moved /media/new/Mail";

pub const STATUS_ABOUT: &str = "Tells how the folder stands: what a scan would do, and what waits.";

pub const LIST_ABOUT: &str = "Lists the mail of the folder.

Each mail is a line of six fields with a tab between each two: its version, the letters of its flags, its
folders with commas between them, the day, the sender and the subject. A control character in a field stands
as `\\x` and its code.";

pub const LIST_AFTER: &str =
    "FILTER is written as for `init`. Deleted mail, which stands in no folder, is listed only where FILTER selects it.

Example:
  $ mailfold ls Mail 'label:inbox & !flag:seen'";

pub const SHOW_ABOUT: &str = "Tells what a version says of its mail.

VERSION is one that the folder holds, as `ls` prints it.";

pub const EXPORT_ABOUT: &str = "Writes the file of a mail to standard output, byte for byte.

VERSION is one that the folder holds, as `ls` prints it.";

pub const LOG_ABOUT: &str =
    "Lists what happened, oldest first: all events, or what is told of one mail.

VERSION is one that the folder holds, as `ls` prints it.";

pub const VERIFY_ABOUT: &str = "Reads the file of each mail again, and compares its digest.

Each mail whose file is missing or has other bytes is a line: its version, and which of the two it is.";

pub const VERIFY_AFTER: &str = "Exit status: 0 where all files are whole, and else 1.";

pub const AUDIT_ABOUT: &str =
    "Joins the logs of several folders into one history, or names the first events that no history explains.

Each DIR is another folder of those that sync, or a copy of one, of which `.mailfold/log` is enough; all of
them should be there. Where one history explains all logs, each version that was told in them and that none
supersedes is held by one of the folders, and none of them was told a version twice. This is of the logs: of
the mails' files `verify` tells.";

pub const AUDIT_AFTER: &str =
    "Else each folder with events that nobody explains is a line: the number of the first one, as `log` prints
it, and which replica should have given what it takes. Either that replica's folder isn't here; or its log was
set back, as from a backup, or lost by a disk that said it had it; or it was made anew with its old number; or
a log was changed. A peer that isn't here is told too: of what only it has nothing is said.

It does all events again, which takes some five times as long as opening the folders, and up to three times the
memory.

Exit status: 0 where one history explains all logs, and else 1.

Example:
  $ mailfold audit Mail copies/laptop";
