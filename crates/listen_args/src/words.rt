//! The words of the command line, read by `clap` as one command. What is read is `clap`'s reading of that command, with the profile's numbers where
//! an option is left out; and `clap` has the texts of `--help` and `--version`.
ghost use Rattle.std.specs.Prelude.{◌≡◌, IfErr, IfNone, IfOk, IfSome};
ghost use Rattle.clap.specs.Words.{found_of, rows_of};
ghost use Rattle.cli_args.specs.Fault.{IsReadingOf, IsRefusal};
ghost use Rattle.cli_args.specs.Words.{texts};
ghost use Rattle.listen_args.specs.Laws.{ListenSizes};
ghost use Rattle.listen_args.specs.ListenOptions.{AreListenWords, AsksBy, IsFaultOfWords, listen_app};

use clap::ArgMatches;
use cli_args::{
    ArgsFault, FOLDER_HELP, VERSION, add_flag, add_folder, add_number, add_port, add_text, flag,
    matches_of, number, port, text, top_command,
};
use std::alloc::Global;

/// The address if none is asked for.
pub const ADDRESS: &str = "127.0.0.1";

/// The number of places if none is asked for.
pub const PLACES: u32 = 64;

/// The greatest number of places.
pub const MOST_PLACES: u32 = 1_024;

/// The seconds of a head if none are asked for.
pub const HEAD_SECONDS: u32 = 30;

/// The seconds of a connection that stands still if none are asked for.
pub const IDLE_SECONDS: u32 = 60;

/// The default of `--query-seconds`.
pub const QUERY_SECONDS: u32 = 30;

/// The default of `--reply-seconds`.
pub const REPLY_SECONDS: u32 = 3_600;

/// What is said of words that are no command.
pub const USAGE_LINE: &str =
    "bad command line; usage: odata_listen FOLDER (--port P [--address A] | --unix PATH | --socket-stdin) [--connections N] [--head-seconds S] [--idle-seconds S] [--query-seconds S] [--reply-seconds S] [--most-groups N] [--most-ordered N] [--drain-file F] [--plain-files] [--log]";

/// What help says of the program.
const ABOUT: &str =
    "Answers OData requests over a folder of CSV files, and takes the folder up where it changed";

/// What help says of `--address`.
const ADDRESS_HELP: &str = "An address of IPv4 or IPv6 of this machine; without it 127.0.0.1";

/// What help says of `--plain-files`.
const PLAIN_HELP: &str = "A link in the place of a file is no file of the folder";

/// What help says of `--log`.
const LOG_HELP: &str = "A line for each connection that is opened or ends, and for each reload";

/// What help says of `--connections`.
const PLACES_HELP: &str = "The most connections at a time, from 1 to 1024; without it 64";

/// What help says of `--head-seconds`.
const HEAD_HELP: &str = "The most seconds from a head's first byte to its last; without it 30";

/// What help says of `--idle-seconds`.
const IDLE_HELP: &str = "The most seconds of a connection that does not get on; without it 60";

/// What help says of `--unix`.
const UNIX_HELP: &str = "Listens on a Unix socket at this path, and on no port";

/// What help says of `--socket-stdin`.
const STDIN_HELP: &str = "Listens on the socket that is standard input, and on no port";

/// What help says of `--drain-file`.
const DRAIN_HELP: &str =
    "Takes no connection once this file is there, and ends when the replies under way are sent";

/// What help says of `--query-seconds`.
const QUERY_HELP: &str =
    "The most seconds of processor time of a request, 0 for no limit; without it 30";

/// What help says of `--reply-seconds`.
const REPLY_HELP: &str =
    "The most seconds in which a peer may take a reply, 0 for no limit; without it 3600";

/// What help says of `--most-groups`.
const GROUPS_HELP: &str = "The most groups of a query, 0 for no limit; without it 0";

/// What help says of `--most-ordered`.
const ORDERED_HELP: &str = "The most rows that a query puts in order, 0 for no limit; without it 0";

/// The numbers of the command line.
pub fn sizes()
    ensures { ListenSizes }
{}

/// The options of the command line: a folder to serve, what to listen on, how much a peer may take of the service, and what else to do.
#[derive(Clone, Copy)]
pub struct ListenOptions<'a> {
    pub folder: &'a str,
    pub port: Option<u16>,
    /// The address of the port.
    pub address: &'a str,
    pub unix: Option<&'a str>,
    pub socket_stdin: bool,
    pub places: u32,
    pub head_seconds: u32,
    pub idle_seconds: u32,
    /// 0 for no limit.
    pub query_seconds: u32,
    /// 0 for no limit.
    pub reply_seconds: u32,
    /// 0 for no limit.
    pub most_groups: u32,
    /// 0 for no limit.
    pub most_ordered: u32,
    pub drain_file: Option<&'a str>,
    pub plain_files: bool,
    pub log: bool,
}

/// Returns what `clap` reads of the words by the whole command.
fn line_matches<'a>(alloc: Global, words: &'a [&'a str]) -> Result<ArgMatches<'a>, ArgsFault>
    ensures matches { IfOk result (IsReadingOf listen_app (texts words.now)) }
    ensures fault { IfErr result (IsRefusal listen_app (texts words.now)) }
{
    let top = top_command(alloc, "odata_listen", ABOUT, VERSION, false);
    let folder = add_folder(alloc, top, true, FOLDER_HELP);
    let port = add_port(alloc, folder, "The port; 0 takes a free one");
    let address = add_text(alloc, port, "address", "A", ADDRESS_HELP);
    let unix = add_text(alloc, address, "unix", "PATH", UNIX_HELP);
    let drain = add_text(alloc, unix, "drain-file", "F", DRAIN_HELP);
    let stdin = add_flag(alloc, drain, "socket-stdin", STDIN_HELP);
    let plain = add_flag(alloc, stdin, "plain-files", PLAIN_HELP);
    let log = add_flag(alloc, plain, "log", LOG_HELP);
    let places = add_number(alloc, log, "connections", "N", PLACES_HELP);
    let head = add_number(alloc, places, "head-seconds", "S", HEAD_HELP);
    let idle = add_number(alloc, head, "idle-seconds", "S", IDLE_HELP);
    let query = add_number(alloc, idle, "query-seconds", "S", QUERY_HELP);
    let reply = add_number(alloc, query, "reply-seconds", "S", REPLY_HELP);
    let groups = add_number(alloc, reply, "most-groups", "N", GROUPS_HELP);
    let ordered = add_number(alloc, groups, "most-ordered", "N", ORDERED_HELP);
    matches_of(ordered, words)
}

/// Returns what the matches ask for.
fn matches_words<'a>(matches: &ArgMatches<'a>) -> Option<ListenOptions<'a>>
    ensures some { IfSome result (λ words. AsksBy words (rows_of (found_of matches.now))) }
    ensures none { IfNone result
        ((words : ListenOptions) → AsksBy words (rows_of (found_of matches.now)) → ⊥) }
{
    let folder = text(matches, "folder")?;
    Some(ListenOptions {
        folder,
        port: port(matches),
        address: text(matches, "address").unwrap_or(ADDRESS),
        unix: text(matches, "unix"),
        socket_stdin: flag(matches, "socket-stdin"),
        places: number(matches, "connections").unwrap_or(PLACES),
        head_seconds: number(matches, "head-seconds").unwrap_or(HEAD_SECONDS),
        idle_seconds: number(matches, "idle-seconds").unwrap_or(IDLE_SECONDS),
        query_seconds: number(matches, "query-seconds").unwrap_or(QUERY_SECONDS),
        reply_seconds: number(matches, "reply-seconds").unwrap_or(REPLY_SECONDS),
        most_groups: number(matches, "most-groups").unwrap_or(0),
        most_ordered: number(matches, "most-ordered").unwrap_or(0),
        drain_file: text(matches, "drain-file"),
        plain_files: flag(matches, "plain-files"),
        log: flag(matches, "log"),
    })
}

/// Returns what the words of the command line ask for, of which the first is the program's own name. They are `Usage` only if `clap` finds a mistake in them, or they
/// ask for nothing.
pub fn read_words<'a>(alloc: Global, words: &'a [&'a str]) -> Result<ListenOptions<'a>, ArgsFault>
    ensures words { IfOk result (AreListenWords (texts words.now)) }
    ensures fault { IfErr result (IsFaultOfWords (texts words.now)) }
{
    match line_matches(alloc, words) {
        Ok(matches) => match matches_words(&matches) {
            Some(read) => Ok(read),
            None => Err(ArgsFault::Usage),
        },
        Err(fault) => Err(fault),
    }
}
