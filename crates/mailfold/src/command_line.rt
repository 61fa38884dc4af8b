//! The words of the command line.
use crate::{build, help};
use clap::builder::ValueParser;
use clap::{Arg, ArgAction, ArgMatches, Command, Error};
use mr_filter::{Filter, FilterFault};
use mr_maildir::Layout;
use mr_version::{Author, Version, VersionFault};
use std::alloc::{AllocError, Global};

/// The word of the folder's path, in the help and as its id.
const DIR: &str = "DIR";

/// The word of a filter.
const FILTER: &str = "FILTER";

/// The word of a version.
const VERSION: &str = "VERSION";

/// The option of a replica's id.
const ID: &str = "id";

/// The option of the filter of a new folder.
const NEW_FILTER: &str = "filter";

/// The option of how the folders lie, with its words.
const LAYOUT: &str = "layout";

const DOTS: &str = "dots";

const PLAIN: &str = "plain";

const LAYOUTS: &[&str] = &[DOTS, PLAIN];

/// The option of a scan that changes nothing.
const DRY_RUN: &str = "dry-run";

/// The option of how many deletions are told in one go.
const MOST_DELETIONS: &str = "most-deletions";

/// The option of a status in one line.
const SHORT: &str = "short";

/// The option that ends each line with a zero byte.
const NULL: &str = "null";

/// The option that shows a terminal nothing of how far a command is.
const QUIET: &str = "quiet";

/// The option of how many days the file of a deleted mail stays.
const OLDER: &str = "older";

/// A new folder.
#[derive(Drop)]
pub struct InitRequest<'a> {
    pub folder: &'a str,
    pub id: Author,
    pub filter: Filter,
    /// How its folders lie; with none, as they seem to.
    pub layout: Option<Layout>,
}

/// A folder that becomes another replica.
#[derive(Drop)]
pub struct RenewRequest<'a> {
    pub folder: &'a str,
    pub id: Author,
    /// Which mail it has; with none, that which it had.
    pub filter: Option<Filter>,
}

/// A scan.
#[derive(Clone, Copy)]
pub struct ScanRequest<'a> {
    pub folder: &'a str,
    /// Whether it only tells what it would do.
    pub is_dry: bool,
    /// How many deletions are told in one go; with none it goes by how many mails there are.
    pub most_deletions: Option<usize>,
    /// Whether a terminal isn't shown how far it is.
    pub is_quiet: bool,
}

/// Files of deleted mail that go.
#[derive(Clone, Copy)]
pub struct ExpireRequest<'a> {
    pub folder: &'a str,
    /// For how many days they stay; with none all of them go.
    pub days: Option<u32>,
}

/// A list of mail.
#[derive(Drop)]
pub struct ListRequest<'a> {
    pub folder: &'a str,
    /// Which mail is listed; with none, all that isn't deleted.
    pub filter: Option<Filter>,
    /// Whether a zero byte ends each line, and not a line feed.
    pub ends_in_zero: bool,
}

/// What a command line asks for. A text is a folder's path.
#[derive(Drop)]
pub enum Request<'a> {
    Init(InitRequest<'a>),
    Scan(ScanRequest<'a>),
    /// A sync, and whether a terminal isn't shown how far it is.
    Sync { folder: &'a str, is_quiet: bool },
    Serve(&'a str),
    Expire(ExpireRequest<'a>),
    Renew(RenewRequest<'a>),
    Moved(&'a str),
    Status { folder: &'a str, is_short: bool },
    List(ListRequest<'a>),
    Show { folder: &'a str, version: Version },
    Export { folder: &'a str, version: Version },
    /// All events.
    Log(&'a str),
    /// What is told of the mail that the version is of.
    History { folder: &'a str, version: Version },
    Verify(&'a str),
    Audit(Vec<&'a str>),
}

/// Why a command line asks for nothing that is done.
#[derive(Drop)]
pub enum Unread {
    /// It asks for help or for the version, or a word is missing, not known or too many. The text is what is printed.
    Told(Error),
    /// The word of a version names none.
    Version(VersionFault),
    /// The word of a filter means none.
    Filter(FilterFault),
    /// It names no subcommand. clap tells of that first.
    Nothing,
}

impl From<Error> for Unread {
    fn from(error: Error) -> Unread {
        Unread::Told(error)
    }
}

impl From<VersionFault> for Unread {
    fn from(fault: VersionFault) -> Unread {
        Unread::Version(fault)
    }
}

impl From<FilterFault> for Unread {
    fn from(fault: FilterFault) -> Unread {
        Unread::Filter(fault)
    }
}

/// Reads the words of a command line, the program's name first.
pub fn read_command_line<'a>(alloc: Global, words: &'a [String]) -> Result<Request<'a>, Unread> {
    let matches = matches_of(alloc, words)?;
    let request = request_of(alloc, &matches);
    drop(matches);
    request
}

/// What the words ask for, by their subcommand.
fn request_of<'a>(alloc: Global, matches: &ArgMatches<'a>) -> Result<Request<'a>, Unread> {
    let Some((name, words)) = matches.subcommand() else {
        return Err(Unread::Nothing);
    };
    let folder = folder_of(words);
    match name {
        "init" => init_request(alloc, folder, words),
        "scan" => Ok(scan_request(folder, words)),
        "sync" => Ok(sync_request(folder, words)),
        "serve" => Ok(Request::Serve(folder)),
        "expire" => Ok(expire_request(folder, words)),
        "renew" => renew_request(alloc, folder, words),
        "moved" => Ok(Request::Moved(folder)),
        "status" => Ok(status_request(folder, words)),
        "ls" => list_request(alloc, folder, words),
        "show" => show_request(folder, words),
        "export" => export_request(folder, words),
        "log" => log_request(folder, words),
        "verify" => Ok(Request::Verify(folder)),
        "audit" => Ok(Request::Audit(folders_of(alloc, words)?)),
        _ => Err(Unread::Nothing),
    }
}

/// What the words are, by the program's subcommands.
fn matches_of<'a>(alloc: Global, words: &'a [String]) -> Result<ArgMatches<'a>, Error> {
    mailfold(alloc)?.try_get_matches_from(words)
}

/// The path of the folder. clap refuses a command line without one.
fn folder_of<'a>(words: &ArgMatches<'a>) -> &'a str {
    words.get_str(DIR).unwrap_or("")
}

fn init_request<'a>(
    alloc: Global,
    folder: &'a str,
    words: &ArgMatches<'a>,
) -> Result<Request<'a>, Unread> {
    let id = id_of(words)?;
    let filter = filter_of(alloc, words, NEW_FILTER)?;
    Ok(Request::Init(InitRequest {
        folder,
        id,
        filter,
        layout: layout_of(words),
    }))
}

/// The replica's id. clap refuses a command line without one.
fn id_of(words: &ArgMatches) -> Result<Author, VersionFault> {
    Author::try_new(words.get_one::<u16>(ID).unwrap_or(0))
}

/// The filter of this word; with none, that of all mail.
fn filter_of(alloc: Global, words: &ArgMatches, id: &str) -> Result<Filter, FilterFault> {
    Filter::read(alloc, words.get_str(id).unwrap_or("all"))
}

/// The filter of this word, if it is there.
fn asked_filter(
    alloc: Global,
    words: &ArgMatches,
    id: &str,
) -> Result<Option<Filter>, FilterFault> {
    if words.contains_id(id) {
        Ok(Some(filter_of(alloc, words, id)?))
    } else {
        Ok(None)
    }
}

/// The layout that is asked for, if one is.
fn layout_of(words: &ArgMatches) -> Option<Layout> {
    match words.get_str(LAYOUT) {
        Some(DOTS) => Some(Layout::Dots),
        Some(_) => Some(Layout::Plain),
        None => None,
    }
}

fn scan_request<'a>(folder: &'a str, words: &ArgMatches<'a>) -> Request<'a> {
    Request::Scan(ScanRequest {
        folder,
        is_dry: words.get_flag(DRY_RUN),
        most_deletions: words.get_one::<usize>(MOST_DELETIONS),
        is_quiet: words.get_flag(QUIET),
    })
}

fn sync_request<'a>(folder: &'a str, words: &ArgMatches<'a>) -> Request<'a> {
    Request::Sync {
        folder,
        is_quiet: words.get_flag(QUIET),
    }
}

fn expire_request<'a>(folder: &'a str, words: &ArgMatches<'a>) -> Request<'a> {
    Request::Expire(ExpireRequest {
        folder,
        days: words.get_one::<u32>(OLDER),
    })
}

fn status_request<'a>(folder: &'a str, words: &ArgMatches<'a>) -> Request<'a> {
    Request::Status {
        folder,
        is_short: words.get_flag(SHORT),
    }
}

fn list_request<'a>(
    alloc: Global,
    folder: &'a str,
    words: &ArgMatches<'a>,
) -> Result<Request<'a>, Unread> {
    let filter = asked_filter(alloc, words, FILTER)?;
    Ok(Request::List(ListRequest {
        folder,
        filter,
        ends_in_zero: words.get_flag(NULL),
    }))
}

fn renew_request<'a>(
    alloc: Global,
    folder: &'a str,
    words: &ArgMatches<'a>,
) -> Result<Request<'a>, Unread> {
    let id = id_of(words)?;
    let filter = asked_filter(alloc, words, NEW_FILTER)?;
    Ok(Request::Renew(RenewRequest { folder, id, filter }))
}

fn show_request<'a>(folder: &'a str, words: &ArgMatches<'a>) -> Result<Request<'a>, Unread> {
    let version = version_of(words)?;
    Ok(Request::Show { folder, version })
}

fn export_request<'a>(folder: &'a str, words: &ArgMatches<'a>) -> Result<Request<'a>, Unread> {
    let version = version_of(words)?;
    Ok(Request::Export { folder, version })
}

/// The version of a word that has to be there.
fn version_of(words: &ArgMatches) -> Result<Version, VersionFault> {
    Version::read(words.get_str(VERSION).unwrap_or(""))
}

fn log_request<'a>(folder: &'a str, words: &ArgMatches<'a>) -> Result<Request<'a>, Unread> {
    if !words.contains_id(VERSION) {
        return Ok(Request::Log(folder));
    }
    let version = version_of(words)?;
    Ok(Request::History { folder, version })
}

/// The paths of the folders. clap refuses a command line without one.
fn folders_of<'a>(alloc: Global, words: &ArgMatches<'a>) -> Result<Vec<&'a str>, Error> {
    Ok(words.get_strs(DIR).unwrap_or(&[]).to_vec(alloc)?)
}

/// The program's subcommands, their words and their help.
fn mailfold<'a>(alloc: Global) -> Result<Command<'a>, AllocError> {
    let command = Command::new(alloc, "mailfold")
        .bin_name("mailfold")?
        .version(build::VERSION)
        .about(help::SHORT_ABOUT)
        .long_about(help::ABOUT)
        .after_long_help(help::AFTER)
        .subcommand_required(true)
        .arg_required_else_help(true);
    let command = with_syncing(alloc, command)?;
    let command = with_replacing(alloc, command)?;
    let command = with_lists(alloc, command)?;
    with_mails(alloc, command)
}

/// The command, with the subcommands that change a folder.
fn with_syncing<'a>(alloc: Global, command: Command<'a>) -> Result<Command<'a>, AllocError> {
    let command = with(command, init_command(alloc))?;
    let command = with(command, scan_command(alloc))?;
    let command = with(command, sync_command(alloc))?;
    let command = with(command, serve_command(alloc))?;
    with(command, expire_command(alloc))
}

/// The command, with this subcommand if there is memory for it.
fn with<'a>(
    command: Command<'a>,
    made: Result<Command<'a>, AllocError>,
) -> Result<Command<'a>, AllocError> {
    command.subcommand(made?)
}

/// The command, with the subcommands for a folder that isn't what it was, or isn't where it was.
fn with_replacing<'a>(alloc: Global, command: Command<'a>) -> Result<Command<'a>, AllocError> {
    let command = with(command, renew_command(alloc))?;
    with(command, moved_command(alloc))
}

/// The command, with the subcommands that tell of the whole folder.
fn with_lists<'a>(alloc: Global, command: Command<'a>) -> Result<Command<'a>, AllocError> {
    let command = with(command, status_command(alloc))?;
    let command = with(command, list_command(alloc))?;
    let command = with(command, log_command(alloc))?;
    let command = with(command, verify_command(alloc))?;
    with(command, audit_command(alloc))
}

/// The command, with the subcommands that tell of one mail.
fn with_mails<'a>(alloc: Global, command: Command<'a>) -> Result<Command<'a>, AllocError> {
    let command = with(command, show_command(alloc))?;
    with(command, export_command(alloc))
}

fn sync_command<'a>(alloc: Global) -> Result<Command<'a>, AllocError> {
    Command::new(alloc, "sync")
        .about("Syncs with the folder that talks on the standard streams")
        .long_about(help::SYNC_ABOUT)
        .arg(folder_word(alloc))?
        .arg(quiet_option(alloc))
}

/// The option that shows a terminal nothing of how far a command is.
fn quiet_option<'a>(alloc: Global) -> Arg<'a> {
    Arg::new(alloc, QUIET)
        .short('q')
        .long(QUIET)
        .help("Shows nothing of how far it is; else a terminal is shown that")
        .action(ArgAction::SetTrue)
}

fn serve_command<'a>(alloc: Global) -> Result<Command<'a>, AllocError> {
    Command::new(alloc, "serve")
        .about("Serves the folder to a sync, on the standard streams")
        .long_about(help::SERVE_ABOUT)
        .arg(folder_word(alloc))
}

fn expire_command<'a>(alloc: Global) -> Result<Command<'a>, AllocError> {
    Command::new(alloc, "expire")
        .about("Lets the files of deleted mail go")
        .long_about(help::EXPIRE_ABOUT)
        .after_long_help(help::EXPIRE_AFTER)
        .arg(folder_word(alloc))?
        .arg(older_option(alloc))
}

/// The option of how many days the file of a deleted mail stays.
fn older_option<'a>(alloc: Global) -> Arg<'a> {
    Arg::new(alloc, OLDER)
        .long(OLDER)
        .value_name("DAYS")
        .help("Lets only those go that are so many days old; with none, all")
        .value_parser(clap::value_parser!(u32))
}

fn moved_command<'a>(alloc: Global) -> Result<Command<'a>, AllocError> {
    Command::new(alloc, "moved")
        .about("Says that the folder was moved here, and not copied")
        .long_about(help::MOVED_ABOUT)
        .after_long_help(help::MOVED_AFTER)
        .arg(folder_word(alloc))
}

fn verify_command<'a>(alloc: Global) -> Result<Command<'a>, AllocError> {
    Command::new(alloc, "verify")
        .about("Reads the file of each mail again")
        .long_about(help::VERIFY_ABOUT)
        .after_long_help(help::VERIFY_AFTER)
        .arg(folder_word(alloc))
}

fn show_command<'a>(alloc: Global) -> Result<Command<'a>, AllocError> {
    Command::new(alloc, "show")
        .about("Tells what a version says of its mail")
        .long_about(help::SHOW_ABOUT)
        .arg(folder_word(alloc))?
        .arg(version_word(alloc).required(true))
}

fn export_command<'a>(alloc: Global) -> Result<Command<'a>, AllocError> {
    Command::new(alloc, "export")
        .about("Writes the file of a mail to standard output")
        .long_about(help::EXPORT_ABOUT)
        .arg(folder_word(alloc))?
        .arg(version_word(alloc).required(true))
}

fn audit_command<'a>(alloc: Global) -> Result<Command<'a>, AllocError> {
    Command::new(alloc, "audit")
        .about("Joins the logs of folders into one history")
        .long_about(help::AUDIT_ABOUT)
        .after_long_help(help::AUDIT_AFTER)
        .arg(folder_words(alloc))
}

/// The words of the folders' paths.
fn folder_words<'a>(alloc: Global) -> Arg<'a> {
    Arg::new(alloc, DIR)
        .help("The folders: Maildirs")
        .required(true)
        .num_args(1..)
        .value_parser(ValueParser::NonEmptyString)
}

/// The word of the folder's path.
fn folder_word<'a>(alloc: Global) -> Arg<'a> {
    Arg::new(alloc, DIR)
        .help("The folder: a Maildir")
        .required(true)
        .value_parser(ValueParser::NonEmptyString)
}

/// The word that names a version.
fn version_word<'a>(alloc: Global) -> Arg<'a> {
    Arg::new(alloc, VERSION).help("A version that the folder holds, as `0.1`")
}

fn init_command<'a>(alloc: Global) -> Result<Command<'a>, AllocError> {
    Command::new(alloc, "init")
        .about("Makes a Maildir a folder that can be synced")
        .long_about(help::INIT_ABOUT)
        .after_long_help(help::INIT_AFTER)
        .arg(folder_word(alloc))?
        .arg(id_option(
            alloc,
            "The folder's number, 0 to 63: another one for each folder of those that sync",
        ))?
        .arg(filter_option(alloc, "Which mail the folder has; all, with none"))?
        .arg(layout_option(alloc))
}

/// The option of how the folders lie.
fn layout_option<'a>(alloc: Global) -> Arg<'a> {
    Arg::new(alloc, LAYOUT)
        .long(LAYOUT)
        .value_name("LAYOUT")
        .help(
            "How its folders lie: Maildir++ (`.a.b`) or plain (`a/b`); as they seem to, with none",
        )
        .value_parser(ValueParser::Names(LAYOUTS))
}

fn renew_command<'a>(alloc: Global) -> Result<Command<'a>, AllocError> {
    Command::new(alloc, "renew")
        .about("Makes the folder a new replica, with another number")
        .long_about(help::RENEW_ABOUT)
        .after_long_help(help::RENEW_AFTER)
        .arg(folder_word(alloc))?
        .arg(id_option(
            alloc,
            "The folder's new number, 0 to 63: one that no folder ever had",
        ))?
        .arg(filter_option(
            alloc,
            "Which mail the folder has; with none, that which it had",
        ))
}

/// The option of a replica's id, which has to be there.
fn id_option<'a>(alloc: Global, about: &'a str) -> Arg<'a> {
    Arg::new(alloc, ID)
        .long(ID)
        .value_name("N")
        .help(about)
        .required(true)
        .value_parser(clap::value_parser!(u16).range(0..=63))
}

/// The option of a replica's filter.
fn filter_option<'a>(alloc: Global, about: &'a str) -> Arg<'a> {
    Arg::new(alloc, NEW_FILTER)
        .long(NEW_FILTER)
        .value_name(FILTER)
        .help(about)
}

fn scan_command<'a>(alloc: Global) -> Result<Command<'a>, AllocError> {
    Command::new(alloc, "scan")
        .about("Takes what other programs changed in the Maildir")
        .long_about(help::SCAN_ABOUT)
        .after_long_help(help::SCAN_AFTER)
        .arg(folder_word(alloc))?
        .arg(dry_option(alloc))?
        .arg(deletions_option(alloc))?
        .arg(quiet_option(alloc))
}

/// The option of a scan that changes nothing.
fn dry_option<'a>(alloc: Global) -> Arg<'a> {
    Arg::new(alloc, DRY_RUN)
        .long(DRY_RUN)
        .help("Tells what would be done, and does nothing")
        .action(ArgAction::SetTrue)
}

/// The option of how many deletions are told in one go.
fn deletions_option<'a>(alloc: Global) -> Arg<'a> {
    Arg::new(alloc, MOST_DELETIONS)
        .long(MOST_DELETIONS)
        .value_name("N")
        .help("How many mails may be missing: 20 or a tenth of all, with none")
        .value_parser(clap::value_parser!(usize))
}

fn status_command<'a>(alloc: Global) -> Result<Command<'a>, AllocError> {
    Command::new(alloc, "status")
        .about("Tells what a scan would do, and what waits")
        .long_about(help::STATUS_ABOUT)
        .arg(folder_word(alloc))?
        .arg(short_option(alloc))
}

/// The option of a status in one line.
fn short_option<'a>(alloc: Global) -> Arg<'a> {
    Arg::new(alloc, SHORT)
        .long(SHORT)
        .help("In one line")
        .action(ArgAction::SetTrue)
}

fn list_command<'a>(alloc: Global) -> Result<Command<'a>, AllocError> {
    Command::new(alloc, "ls")
        .about("Lists the mail of the folder")
        .long_about(help::LIST_ABOUT)
        .after_long_help(help::LIST_AFTER)
        .arg(folder_word(alloc))?
        .arg(filter_word(alloc))?
        .arg(null_option(alloc))
}

/// The word of the filter of a list.
fn filter_word<'a>(alloc: Global) -> Arg<'a> {
    Arg::new(alloc, FILTER).help("Which mail is listed; all that isn't deleted, with none")
}

/// The option that ends each line with a zero byte.
fn null_option<'a>(alloc: Global) -> Arg<'a> {
    Arg::new(alloc, NULL)
        .short('0')
        .long(NULL)
        .help("A zero byte ends each line, in place of a line feed")
        .action(ArgAction::SetTrue)
}

fn log_command<'a>(alloc: Global) -> Result<Command<'a>, AllocError> {
    Command::new(alloc, "log")
        .about("Lists all events, or what is told of one mail")
        .long_about(help::LOG_ABOUT)
        .arg(folder_word(alloc))?
        .arg(version_word(alloc))
}
