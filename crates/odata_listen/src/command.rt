//! What the words of the command line ask for, done. Each end has the exit status that `exit_statuses` has for it, and each status but 0 a line on standard error.
ghost use Rattle.std.specs.Prelude.{◌≡◌, ◌≢◌, ◌==◌, ◌-◌, ◌^◌, if◌then◌else◌};
ghost use Rattle.std.specs.IoError.{error_kind};
ghost use Rattle.cli_args.specs.Words.{texts};
ghost use Rattle.exit_statuses.specs.Status.{IsFaultStatus};
ghost use Rattle.odata_listen.specs.Command.{IsLineStatus, IsServedStatus, IsStartStatus};

use crate::drain::Drain;
use crate::folder::Folder;
use crate::limits::KeptLimits;
use crate::serving::{Service, serve};
use cli_args::{ArgsFault, line_of, system_words};
use exit_statuses::{DEVICE, DONE, MEMORY, ProgramFault, USAGE, error_status, report};
use listen_args::{
    ListenOptions, Listens, MOST_PLACES, Obstacle, USAGE_LINE, listens_of, read_words,
    unserved_line,
};
use listen_sockets::{Server, TimeLimits};
use served_folders::FolderFault;
use service_log::Log;
use socket_listener::ListeningSocket;
use std::io::{self, ErrorKind};
use std::net::{Net, SocketAddr};
use std::rc::Rc;
use std::rt::{Clock, Env, Files};
use table_store::Catalog;

/// What is said if memory ran out.
const NO_MEMORY: &str = "not served: memory ran out";

/// Says how the program is called.
fn usage_status(rt: &HostRuntime) -> u8
    ensures { result ≡ USAGE }
{
    let _ = rt.eprintln(USAGE_LINE);
    USAGE
}

/// Says that memory ran out.
fn memory_status(rt: &HostRuntime) -> u8
    ensures { result ≡ MEMORY }
{
    let _ = rt.eprintln(NO_MEMORY);
    MEMORY
}

/// Says why a folder is not served.
fn refused_status(rt: &HostRuntime, fault: FolderFault) -> u8
    ensures status { IsFaultStatus (ProgramFault.Folder fault) result }
    ensures other { result ≢ USAGE }
{
    let status = report(rt, &ProgramFault::Folder(fault));
    if status == DEVICE {
        let _ = rt.eprintln("not served: a file can't be read, or is no plain file");
    }
    if status == MEMORY {
        let _ = rt.eprintln(NO_MEMORY);
    }
    status
}

/// Says that the service could not begin, or that it ended, for an error of the system.
fn ended_status(rt: &HostRuntime, error: &io::Error) -> u8
    ensures memory { error_kind error.now ≡ ErrorKind.OutOfMemory → result ≡ MEMORY }
    ensures device { error_kind error.now ≢ ErrorKind.OutOfMemory → result ≡ DEVICE }
    ensures other { result ≢ USAGE }
{
    match error.kind() {
        ErrorKind::OutOfMemory => memory_status(rt),
        _ => {
            let _ = rt.eprintln("not served: a call of the system failed");
            DEVICE
        }
    }
}

/// Says that a place to listen at could not be taken.
fn unbound_status(rt: &HostRuntime, at: &Listens<'_>, error: &io::Error) -> u8
    ensures memory { error_kind error.now ≡ ErrorKind.OutOfMemory → result ≡ MEMORY }
    ensures device { error_kind error.now ≢ ErrorKind.OutOfMemory → result ≡ DEVICE }
    ensures other { result ≢ USAGE }
{
    let kind = error.kind();
    if kind == ErrorKind::OutOfMemory {
        return memory_status(rt);
    }
    if let Ok(line) = unserved_line(rt.alloc(), at, Obstacle::of(kind)) {
        let _ = rt.eprintln(line);
    }
    DEVICE
}

/// Takes a place to listen at.
fn bind(rt: &HostRuntime, at: &Listens<'_>) -> io::Result<ListeningSocket> {
    match at {
        Listens::Port { address, port, .. } => {
            ListeningSocket::at_port(rt, SocketAddr::new(*address, *port))
        }
        Listens::Unix { path } => ListeningSocket::at_path(rt, path),
        Listens::Stdin => ListeningSocket::of_input(rt),
    }
}

/// Says where it listens: the path, or the address and port that the system reports.
fn say_listening(
    rt: &HostRuntime,
    words: &ListenOptions<'_>,
    listener: &ListeningSocket,
) -> io::Result<()> {
    if let Some(path) = words.unix {
        return rt.println(format!(in rt.alloc(); "listening {path}")?);
    }
    let address = listener.address()?;
    rt.println(format!(in rt.alloc(); "listening {address}")?)
}

/// Returns the most seconds of a reply: 0 on the command line is no limit.
fn most_seconds(seconds: u32) -> u32
    ensures { result ≡ (if seconds == 0 then 2 ^ 32 - 1 else seconds) }
{
    if seconds == 0 { u32::MAX } else { seconds }
}

/// Returns the most rows or groups that a query keeps: 0 on the command line is no limit.
fn most_kept(count: u32) -> u64
    ensures { result ≡ (if count == 0 then 2 ^ 64 - 1 else count) }
{
    if count == 0 {
        u64::MAX
    } else {
        u64::from(count)
    }
}

/// Says where it listens, and serves.
fn listen(
    rt: &HostRuntime,
    words: &ListenOptions<'_>,
    listener: ListeningSocket,
    mut folder: Folder<'_>,
    catalog: Catalog,
) -> io::Result<()> {
    let tables = Rc::new(rt.alloc(), catalog)?;
    folder.older.replace(tables.clone()?);
    let mut server = Server::new(rt.alloc(), tables, words.places)?;
    say_listening(rt, words, &listener)?;
    let limits = TimeLimits {
        head: words.head_seconds,
        idle: words.idle_seconds,
        query: words.query_seconds,
        reply: most_seconds(words.reply_seconds),
    };
    let kept = KeptLimits {
        ordered: most_kept(words.most_ordered),
        groups: most_kept(words.most_groups),
    };
    let mut service = Service {
        folder,
        limits,
        kept,
        log: Log::new(rt, words.log),
        drain: Drain::new(words.drain_file),
    };
    let ended = serve(rt, &mut server, listener, &mut service, u64::MAX);
    service.log.flush();
    ended
}

/// Serves the tables of a folder at a place.
fn tables_status(
    rt: &HostRuntime,
    words: &ListenOptions<'_>,
    at: &Listens<'_>,
    folder: Folder<'_>,
    catalog: Catalog,
) -> u8
    ensures { result ≢ USAGE }
{
    match bind(rt, at) {
        Ok(listener) => match listen(rt, words, listener, folder, catalog) {
            Ok(()) => DONE,
            Err(error) => ended_status(rt, &error),
        },
        Err(error) => unbound_status(rt, at, &error),
    }
}

/// Serves what a folder came to at the start, or says why it does not: `None` is a folder that changed under each load.
fn start_status(
    rt: &HostRuntime,
    words: &ListenOptions<'_>,
    at: &Listens<'_>,
    folder: Folder<'_>,
    loaded: Option<Result<Catalog, FolderFault>>,
) -> u8
    ensures status { IsStartStatus loaded result }
    ensures other { result ≢ USAGE }
{
    match loaded {
        Some(Ok(catalog)) => tables_status(rt, words, at, folder, catalog),
        Some(Err(fault)) => refused_status(rt, fault),
        None => {
            let _ = rt.eprintln("not served: the folder changes while it is read");
            DEVICE
        }
    }
}

/// Serves a folder.
fn serve_folder(rt: &HostRuntime, words: &ListenOptions<'_>) -> u8
    ensures { IsServedStatus words.now result }
{
    let Some(at) = listens_of(words) else {
        return usage_status(rt);
    };
    if words.places == 0 || words.places > MOST_PLACES {
        return usage_status(rt);
    }
    let mut folder = Folder::new(rt, words.folder, !words.plain_files);
    let loaded = folder.load(rt);
    start_status(rt, words, &at, folder, loaded)
}

/// Does what a line of words asks for, the first of which is the program's name.
pub fn line_status(rt: &HostRuntime, line: &[&str]) -> u8
    ensures { IsLineStatus (texts line.now) result }
{
    match read_words(rt.alloc(), line) {
        Ok(words) => serve_folder(rt, &words),
        Err(ArgsFault::Shows(text)) => match text.print(rt) {
            Ok(()) => DONE,
            Err(error) => error_status(&error),
        },
        Err(ArgsFault::Usage) => usage_status(rt),
        Err(ArgsFault::NoMemory) => memory_status(rt),
    }
}

/// Does what the system's words ask for.
fn words_status(rt: &HostRuntime) -> io::Result<u8> {
    let words = system_words(rt)?;
    let line = line_of(rt.alloc(), words.as_slice())?;
    Ok(line_status(rt, line.as_slice()))
}

/// Does what the command line asks for, and gives the exit status: by [`line_status`], of the words that the system hands over.
pub fn command_status(rt: &HostRuntime) -> u8 {
    match words_status(rt) {
        Ok(status) => status,
        // a word that is not UTF-8 is no word of the command
        Err(error) if error.kind() == ErrorKind::InvalidData => usage_status(rt),
        Err(error) => ended_status(rt, &error),
    }
}
