//! Commands: their names and how each is written.
use crate::Commands;
use crate::shown::shown;
use std::alloc::{AllocError, Global};
use strsim::levenshtein;

/// How each command is written, those of a live script first. Brackets are round what may be missing, bars between what
/// may stand there.
const USAGES: [&str; 27] = [
    "replica ID LIMIT CAP FILTER",
    "create R LABELS FLAGS DATE FROM [SUBJECT]",
    "edit R BASES LABELS FLAGS DATE FROM [SUBJECT]",
    "retire R",
    "pull R",
    "answer R Qn",
    "next R N",
    "receive R Pn",
    "part R Pn BYTES",
    "cutin R N",
    "cutout R N",
    "sync T S [N]",
    "vouch R V",
    "release R Rn",
    "offer R indexer|notifier",
    "take R indexer|notifier",
    "close R indexer|notifier",
    "heads R",
    "pushouts R",
    "conflicts R",
    "show R V",
    "know R",
    "feed R",
    "log R",
    "bytes Qn|Pn|Rn",
    "index R LABEL",
    "unseen R",
];

/// How many of them are those of a live script.
const LIVE_USAGES: usize = 3;

/// How many letters a name may be away from a command's to be taken for a slip.
const MOST_SLIPS: usize = 2;

/// The longest name that is compared with those of commands, in bytes.
const LONGEST_NAME: usize = 16;

/// What some editors write before a text, to say how its characters are encoded.
const BYTE_ORDER_MARK: char = '\u{feff}';

/// The names by which other programs are ended.
const ENDS: [&str; 4] = ["quit", "exit", "bye", "q"];

/// The names by which other programs are asked for help.
const HELPS: [&str; 3] = ["help", "h", "?"];

/// What is wrong with a line that ends with a carriage return.
const CARRIAGE_RETURN: &str =
    "the line ends with a carriage return: end each line with a line feed alone";

/// The first word of a text: all before its first space.
pub(crate) fn first_word(text: &str) -> &str {
    match text.split_once(' ') {
        Some((word, _)) => word,
        None => text,
    }
}

/// How the line's command is written, if its name is one's.
pub(crate) fn usage_of(line: &str) -> Option<&'static str> {
    let name = first_word(line);
    for usage in USAGES {
        if first_word(usage) == name {
            return Some(usage);
        }
    }
    None
}

/// What is wrong with a name that is none of these commands'.
pub(crate) fn unknown_command(
    alloc: Global,
    commands: Commands,
    line: &str,
) -> Result<String, AllocError> {
    let name = first_word(line);
    if let Some(hint) = known_slip(name) {
        return String::from_str(alloc, hint);
    }
    let usages = usages_of(commands);
    if let Some(command) = in_small_letters(usages, name) {
        return format!(in alloc; "commands are in small letters: write {command}");
    }
    let name_shown = shown(alloc, name)?;
    match nearest(alloc, usages, name)? {
        Some(command) => {
            format!(in alloc; "{name_shown} is no command; the nearest one is {command}")
        }
        None => {
            let rest = where_listed(commands);
            format!(in alloc; "{name_shown} is no command{rest}")
        }
    }
}

/// How each of these commands is written.
fn usages_of(commands: Commands) -> &'static [&'static str] {
    match commands {
        Commands::All => &USAGES,
        Commands::Live => &USAGES[..LIVE_USAGES],
    }
}

/// Which commands there are, behind the words that a name is none.
fn where_listed(commands: Commands) -> &'static str {
    match commands {
        Commands::All => "; mailrep run --help lists them",
        Commands::Live => " of a live script, which has replica, create and edit alone",
    }
}

/// What is wrong with a line that ends with a carriage return.
pub(crate) fn carriage_return(alloc: Global) -> Result<String, AllocError> {
    String::from_str(alloc, CARRIAGE_RETURN)
}

/// What is wrong with a name that shows by itself what was meant.
fn known_slip(name: &str) -> Option<&'static str> {
    if name.is_empty() {
        Some("a command stands at the line's start, with no space before it")
    } else if name.starts_with(BYTE_ORDER_MARK) {
        Some("the line begins with a byte order mark: save the script as UTF-8 without one")
    } else if name.ends_with('\r') {
        Some(CARRIAGE_RETURN)
    } else if is_one_of(name, &ENDS) {
        Some(
            "a script ends where its input does: at a terminal type Control-D at the start of a line",
        )
    } else if is_one_of(name, &HELPS) {
        Some("mailrep run --help lists the commands")
    } else {
        None
    }
}

/// Whether it is one of these names, but for capitals.
fn is_one_of(name: &str, names: &[&str]) -> bool {
    names.iter().any(|other| other.eq_ignore_ascii_case(name))
}

/// The command of this name, if it is that of one of these usages but for capitals.
fn in_small_letters(usages: &[&'static str], name: &str) -> Option<&'static str> {
    for usage in usages {
        let command = first_word(usage);
        if command.eq_ignore_ascii_case(name) {
            return Some(command);
        }
    }
    None
}

/// The command of these usages that is the fewest letters away, if two lead to it at most. Of several the first.
fn nearest(
    alloc: Global,
    usages: &[&'static str],
    name: &str,
) -> Result<Option<&'static str>, AllocError> {
    let mut found = None;
    let mut fewest = MOST_SLIPS + 1;
    if name.len() > LONGEST_NAME {
        return Ok(None);
    }
    for usage in usages {
        let command = first_word(usage);
        let slips = levenshtein(alloc, name, command)?;
        if slips < fewest {
            found = Some(command);
            fewest = slips;
        }
    }
    Ok(found)
}

/// What is wrong with a line of too few or too many words.
pub(crate) fn wrong_words(alloc: Global, line: &str) -> Result<String, AllocError> {
    let usage = usage_of(line).unwrap_or("");
    if line.contains("  ") || line.ends_with(' ') {
        return format!(in alloc; "write one space between words, and none at the end: {usage}");
    }
    format!(in alloc; "the command is {usage}")
}
