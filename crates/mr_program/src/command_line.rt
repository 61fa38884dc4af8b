//! The words of the command line, and the help.
use crate::build::VERSION;
use clap::builder::ValueParser;
use clap::{Arg, ArgAction, ArgMatches, Command, Error};
use std::alloc::{AllocError, Global};

const ABOUT: &str = "Replicas of a mail collection, driven by scripts.

A replica holds messages, each one revision of an item. A script makes replicas, lets them edit and
tell one another what they have, cut off wherever you like, and asks what they hold. The code that runs
is proved: no mail is lost, and no version is announced twice.";

const AFTER: &str = "Exit status:
  0  the script ran to its end (a replica's refusal is an answer, no fault), or the frame was told
  1  a line that can't be run, no frame, nodes whose logs don't join, a failed read or write, or no
     memory left
  2  a wrong command line
  141  standard output was closed before all was written, as `head` does";

const RUN_ABOUT: &str =
    "Runs the script in FILE, or on standard input, line by line, and prints its answers.

Each line is one command; its words are separated by one space. Empty lines and lines that begin
with # are skipped. A line is run before the next one is waited for, and its answer is written then.
With --hints the text of the script is kept in memory while it runs.";

const RUN_AFTER: &str = "Replicas, before any other command:
  replica ID LIMIT CAP FILTER   a replica that admits LIMIT events, with ports of CAP places

Events:
  create R LABELS FLAGS DATE FROM SUBJECT       a new message at replica R
  edit R BASES LABELS FLAGS DATE FROM SUBJECT   replaces the versions BASES of one item
  retire R                 R admits nothing more, but goes on telling others
  pull R                   R opens a session and asks for what it lacks: request Qn
  answer R Qn              R opens a stream for the one who asks
  next R N                 R gives the next record of its stream N: record Pn
  receive R Pn             the record comes to R
  part R Pn BYTES          only so many bytes of it come
  cutin R N, cutout R N    R closes its session N, its stream N
  sync T S, sync T S N     T asks S and takes its records up to the end, or N of them
  vouch R V                R gives a receipt for V, which is one of its heads: receipt Rn
  release R Rn             R lets go of the push-outs that the receipt frees
  offer R S                the next entry of R's feed goes into its port to S
  take R S                 S, which is indexer or notifier, takes an entry out of its port
  close R S                the port to S is closed

Questions:
  heads R        the versions that R holds and its filter selects
  pushouts R     the versions that R holds for others, since its filter doesn't select them
  conflicts R    the items of which R has several heads
  show R V       the message of version V, if R holds it
  know R         what R knows: items and, behind a space, which versions are known of them
  feed R         what entered (+) and left (-) R's heads, in order of time
  log R          how many events R has admitted
  bytes Qn, bytes Pn, bytes Rn   the frame of a request, a record, a receipt
  index R LABEL  the versions with that label, by what R's indexer has taken
  unseen R       how many messages are unseen, by what R's notifier has taken

  FILTER is `none`, or clauses joined by ` | `. A clause is `all`, or conditions joined by ` & `:
  label:L, !label:L, flag:F, !flag:F and since:DATE. A message is selected if some clause has all its
  conditions true.
  A version is A.C: the replica that issued it and its number there. `0:9!2!5..7` is the versions 1 to 9
  of replica 0 without 2 and 5 to 7. LABELS are joined by `,`, FLAGS
  (seen, answered, flagged, draft, deleted) by `+`, BASES by `,`; `.` stands for none of each. DATE is
  YYYY-MM-DD, 1970-01-01 to 2149-06-06. SUBJECT is the rest of the line, and may be missing; what
  stands after ` // ` is the body.

Example:
  $ mailrep run <<'END'
  replica 0 1000000 4096 all
  replica 1 1000000 4096 label:inbox
  create 0 inbox . 2026-01-05 ann Hi
  sync 1 0
  heads 1
  edit 1 0.1 inbox,work seen 2026-01-05 ann Hi
  sync 0 1
  feed 0
  know 0
  show 0 1.1
  edit 0 0.1 inbox . 2026-01-05 ann Hi
  END
  issued 0.1
  sync 1 from 0: items 1 moveouts 0 finished
  heads 1: 0.1
  issued 1.1
  sync 0 from 1: items 1 moveouts 0 finished
  feed 0: +0.1 -0.1 +1.1
  know 0: all 0:1,1:1
  show 1.1 inbox,work seen 2026-01-05 ann Hi
  refused 3 NotHeld 0.1

Limits:
  ids 0 to 63; LIMIT 1 to 1000000 events; CAP 1 to 4096; a script 16777216 bytes; a sender 254 bytes,
  a subject 998, a body 65536; 16 labels a message, each 1 to 32 bytes of a-z, 0-9 and -

The page docs/SCRIPTS.md has an example of each command, and of each fault with what to do about it.

Exit status:
  0  the script ran to its end (a replica's refusal is an answer, no fault)
  1  a fault, told on standard error as `line N: TEXT`, `read fault`, `write fault` or
     `script too long`; the answers of the lines before it stand. A FILE that can't be opened is a
     `read fault`. With --hints a second line `hint: TEXT` follows the fault of a line and a
     `read fault`
  2  a wrong command line
  141  standard output was closed before all was written, as `head` does";

const DRAW_ABOUT: &str =
    "Runs the script in FILE, or on standard input, and prints an SVG picture of what happened in it.

Time goes downwards, and each replica has a lane. A version is a dot with its name and those that it
replaces, a sync a band with what it took, and a record that was taken an arrow. Pointing at a mark
tells the rest. The page has all that it needs, and is light or dark as its reader's is.";

const DRAW_AFTER: &str =
    "Each event that is shown has a row of its own. The first 400 have one, and the picture says how many
later ones are left out. Questions and refusals are not shown.

Lanes stand from left to right by their replicas' ids, and --names names them in this order: a lane for
which no name is left is called by its id. With more than 12 lanes they are closer, and pointing at a
name tells the filter.

Example:
  $ mailrep draw --names office,phone examples/first.script > history.svg

The lines of a script are those of `mailrep run`, whose help has them all.

Exit status:
  0  the script ran to its end
  1  a fault as of `mailrep run`: the picture is of what was done before it, and has its text under
     it, and standard error tells it too. Nothing is printed where there is no memory for the picture
  2  a wrong command line
  141  standard output was closed before all was written, as `head` does";

const LIVE_ABOUT: &str =
    "Runs the two replicas of the script in FILE, or on standard input, as nodes in threads of their own.

First each does what the lines ask of it; then both meet, and each pulls what the other serves, at
once. What they hold is printed once one history of events is found that explains both.";

const LIVE_AFTER: &str =
    "The lines of the script are `replica`, twice, and then `create` and `edit`, as of `mailrep run`, whose help
has them. All of them are read before a node runs, and a replica's refusal prints nothing.

Example:
  $ mailrep live <<'END'
  replica 0 1000000 4096 all
  replica 1 1000000 4096 label:inbox
  create 0 inbox . 2026-01-05 ann Hi
  create 1 work . 2026-01-05 ann Hi
  END
  joined
  heads 0: 0.1 1.1
  pushouts 0:
  heads 1: 0.1
  pushouts 1: 1.1

`unexplained R E` in place of all this says that no such history is found: R is the lowest replica whose
log can't go on, and its event E carries what nobody gave.

Exit status:
  0  the logs joined
  1  they did not join; or a fault, told on standard error as of `mailrep run`, as `live needs two
     replicas`, or as `out of memory`
  2  a wrong command line
  141  standard output was closed before all was written, as `head` does";

const FRAME_ABOUT: &str = "Tells what the bytes of a frame say.

HEX is one word: two digits of either case for each byte, with spaces wherever they help.";

const FRAME_AFTER: &str = "Frames are told in one line:
  ask target T session N knows KNOWLEDGE filter FILTER
  KIND source A stream N target T session N index I ..
       start, with `full` or `partial`; item and moveout, with `V of ITEM`; held, with a vector; know,
       with a fragment; end
  receipt giver A version V of ITEM
Where bytes follow the frame, `rest N` counts them in a second line.

Where there is no frame:
  refused 1 Truncated  more bytes have to follow
  refused 2 TooLong    more than 8388608 bytes would follow the length
  refused 3 BadFormat  the format byte is neither 1 nor 2
  refused 4 BadKind    the format has no such kind
  refused 5 BadBody    the bytes are none of a frame of that kind
  not hex              a character is neither a digit nor a space, or a digit is left over

Example:
  $ mailrep frame '0000001b 02 01 0000 0000000000000001 0001 0000000000000001 00000000 01'
  start source 0 stream 1 target 1 session 1 index 0 full

Exit status:
  0  the frame was told
  1  there is no frame, standard output can't be written, or no memory is left
  2  a wrong command line
  141  standard output was closed before all was written, as `head` does";

/// The name of the word of digits in the help.
const HEX: &str = "HEX";

/// The name of a script's file in the help.
const FILE: &str = "FILE";

/// The file's name that stands for standard input.
const STANDARD_INPUT: &str = "-";

/// The id of the option that picks the sparing form.
const SPARING: &str = "sparing";

/// The id of the option that asks for hints.
const HINTS: &str = "hints";

/// The id of the option that names the lanes of a picture.
const NAMES: &str = "names";

/// The form in which a script's replicas keep what they know.
#[derive(Clone, Copy)]
pub enum Form {
    /// Item sets, which learn each version for all items.
    Items,
    /// Item sets that are sparing with holes.
    Sparing,
}

/// What is printed of a script.
#[derive(Clone, Copy)]
pub enum Wanted {
    /// The answers of its lines.
    Answers,
    /// The picture of its world.
    Picture,
}

/// How a script is run.
#[derive(Drop)]
pub struct Run<'a> {
    /// What is printed.
    pub wanted: Wanted,
    /// The form of knowledge.
    pub form: Form,
    /// The name of the script's file; none is standard input.
    pub file: Option<&'a str>,
    /// Whether a hint follows a fault.
    pub has_hints: bool,
    /// The names of a picture's lanes, from left to right.
    pub names: Vec<&'a str>,
}

/// How the two replicas of a script are run as nodes.
#[derive(Clone, Copy)]
pub struct Live<'a> {
    /// The name of the script's file; none is standard input.
    pub file: Option<&'a str>,
    /// Whether a hint follows a fault.
    pub has_hints: bool,
}

/// What a command line asks for.
#[derive(Drop)]
pub enum Request<'a> {
    /// To run a script.
    Run(Run<'a>),
    /// To run the two replicas of a script as nodes.
    Live(Live<'a>),
    /// To tell what the frame says that this word spells.
    Frame(&'a str),
}

/// Reads the words of a command line, the program's name first. Asking for help or for the version is an
/// `Err` too, whose text they are.
pub fn read_command_line<'a>(alloc: Global, words: &'a [String]) -> Result<Request<'a>, Error> {
    let matches = mailrep(alloc)?.try_get_matches_from(words)?;
    if let Some(frame) = matches.subcommand_matches("frame") {
        return Ok(Request::Frame(frame.get_str(HEX).unwrap_or("")));
    }
    if let Some(run) = matches.subcommand_matches("run") {
        return Ok(Request::Run(run_of(run, Wanted::Answers, Vec::new(alloc))));
    }
    if let Some(draw) = matches.subcommand_matches("draw") {
        let names = draw.get_strs(NAMES).unwrap_or(&[]).to_vec(alloc)?;
        return Ok(Request::Run(run_of(draw, Wanted::Picture, names)));
    }
    if let Some(live) = matches.subcommand_matches("live") {
        return Ok(Request::Live(Live {
            file: file_of(live),
            has_hints: live.get_flag(HINTS),
        }));
    }
    Ok(Request::Run(plain_run(alloc)))
}

/// A run without options.
fn plain_run<'a>(alloc: Global) -> Run<'a> {
    Run {
        wanted: Wanted::Answers,
        form: Form::Items,
        file: None,
        has_hints: false,
        names: Vec::new(alloc),
    }
}

/// The run that the words of a subcommand ask for.
fn run_of<'a>(matches: &ArgMatches<'a>, wanted: Wanted, names: Vec<&'a str>) -> Run<'a> {
    Run {
        wanted,
        form: if matches.get_flag(SPARING) {
            Form::Sparing
        } else {
            Form::Items
        },
        file: file_of(matches),
        has_hints: matches.get_flag(HINTS),
        names,
    }
}

/// The name of the script's file; none is standard input.
fn file_of<'a>(matches: &ArgMatches<'a>) -> Option<&'a str> {
    matches.get_str(FILE).filter(|name| *name != STANDARD_INPUT)
}

/// The subcommand `run`.
fn run_command<'a>(alloc: Global) -> Result<Command<'a>, AllocError> {
    let command = Command::new(alloc, "run")
        .about("Runs a script, and prints its answers")
        .long_about(RUN_ABOUT)
        .after_long_help(RUN_AFTER);
    with_script_words(alloc, command)
}

/// The subcommand `draw`.
fn draw_command<'a>(alloc: Global) -> Result<Command<'a>, AllocError> {
    let command = Command::new(alloc, "draw")
        .about("Runs a script, and prints a picture of what happened")
        .long_about(DRAW_ABOUT)
        .after_long_help(DRAW_AFTER);
    let names = Arg::new(alloc, NAMES)
        .long(NAMES)
        .value_name("NAMES")
        .help("The names of the lanes from left to right, with commas between them")
        .value_delimiter(',')
        .value_parser(ValueParser::NonEmptyString);
    with_script_words(alloc, command)?.arg(names)
}

/// The subcommand, with the words that say how a script is run.
fn with_script_words<'a>(alloc: Global, command: Command<'a>) -> Result<Command<'a>, AllocError> {
    let sparing = Arg::new(alloc, SPARING)
        .long(SPARING)
        .help("For real mail at any size: it keeps holes few, so `know` may print another text")
        .action(ArgAction::SetTrue);
    command
        .arg(file_word(alloc))?
        .arg(sparing)?
        .arg(hints_option(alloc))
}

/// The option that asks for hints.
fn hints_option<'a>(alloc: Global) -> Arg<'a> {
    Arg::new(alloc, HINTS)
        .long(HINTS)
        .help("Behind a fault, a second line says what was wrong and what is right")
        .action(ArgAction::SetTrue)
}

/// The word that names a script's file.
fn file_word<'a>(alloc: Global) -> Arg<'a> {
    Arg::new(alloc, FILE).help("The script; `-` or none is standard input")
}

/// The subcommand `live`.
fn live_command<'a>(alloc: Global) -> Result<Command<'a>, AllocError> {
    Command::new(alloc, "live")
        .about("Runs the two replicas of a script as nodes, and prints what they hold")
        .long_about(LIVE_ABOUT)
        .after_long_help(LIVE_AFTER)
        .arg(file_word(alloc))?
        .arg(hints_option(alloc))
}

/// The subcommand `frame`.
fn frame_command<'a>(alloc: Global) -> Result<Command<'a>, AllocError> {
    let hex = Arg::new(alloc, HEX)
        .help("The frame's bytes, by two hexadecimal digits each")
        .required(true);
    Command::new(alloc, "frame")
        .about("Tells what the bytes of a frame say")
        .long_about(FRAME_ABOUT)
        .after_long_help(FRAME_AFTER)
        .arg(hex)
}

/// The program's subcommands, their words and their help.
fn mailrep<'a>(alloc: Global) -> Result<Command<'a>, AllocError> {
    Command::new(alloc, "mailrep")
        .bin_name("mailrep")?
        .version(VERSION)
        .about("Replicas of a mail collection, driven by scripts")
        .long_about(ABOUT)
        .after_long_help(AFTER)
        .subcommand_required(true)
        .arg_required_else_help(true)
        .subcommand(run_command(alloc)?)?
        .subcommand(draw_command(alloc)?)?
        .subcommand(live_command(alloc)?)?
        .subcommand(frame_command(alloc)?)
}
