//! What the words of the command line ask for, done: each line of words ends with an exit status, and what is said of a fault goes to standard error.
ghost use Rattle.std.specs.Prelude.{◌≡◌, ◌≢◌, ◌⊎◌};
ghost use Rattle.std.specs.IoError.{error_kind};
ghost use Rattle.odata_serve.specs.Command.{EndsNoScript, IsStatus};
ghost use Rattle.odata_serve.specs.Words.{AsksForReplay, IsTaken};
ghost use Rattle.cli_args.specs.Words.{texts};

use crate::check::check_folder;
use crate::listener::CountedListener;
use crate::program::{self, answer};
use crate::serving::serve;
use crate::words::{Words, WordsFault, read_words};
use cli_args::{line_of, system_words};
use exit_statuses::{DEVICE, DONE, MEMORY, ProgramFault, USAGE, error_status, report};
use hub_scripts::{read_script, replay_script};
use odata_http::Counted;
use served_folders::{BuiltIn, Disk, Folders, NOTES};
use std::io::ErrorKind;
use std::net::{Net, TcpListener, TcpStream};
use std::rt::{Env, Files};
use std::{fs, io};

/// Says that the words are no command of the program.
pub fn usage_status(rt: &impl Eprint) -> u8
    ensures { result ≡ USAGE }
{
    let _ = rt.eprintln("bad command line");
    USAGE
}

/// Returns the exit status if the system hands over no words. A word that is not UTF-8 is no word of a command.
pub fn unread_status(rt: &impl Eprint, error: &io::Error) -> u8
    ensures usage { error_kind error.now ≡ ErrorKind.InvalidData → result ≡ USAGE }
    ensures memory { error_kind error.now ≡ ErrorKind.OutOfMemory → result ≡ MEMORY }
    ensures device { error_kind error.now ≢ ErrorKind.InvalidData
        → error_kind error.now ≢ ErrorKind.OutOfMemory → result ≡ DEVICE }
    ensures other { error_kind error.now ≢ ErrorKind.InvalidData → result ≢ USAGE }
{
    match error.kind() {
        ErrorKind::InvalidData => usage_status(rt),
        _ => error_status(error),
    }
}

/// Returns the exit status of an end; a fault is reported on standard error.
fn end_status(rt: &(impl Eprint + AllocGlobal), end: Result<(), ProgramFault>) -> u8
    ensures status { IsStatus end result }
    ensures other { EndsNoScript end → result ≢ USAGE }
{
    match end {
        Ok(()) => DONE,
        Err(fault) => report(rt, &fault),
    }
}

/// Answers standard input over the folder `notes`.
#[tactic(auto, using(crate::proofs::EndLemmas::answer_ends))]
fn answer_input(rt: &(impl Input + Print + Eprint + AllocGlobal)) -> u8
    ensures { result ≢ USAGE }
{
    let mut folders = BuiltIn::new();
    let mut input = Counted::new(rt.reader());
    let mut out = Counted::new(io::writer(rt));
    let end = answer(rt.alloc(), &mut folders, NOTES, &mut input, &mut out);
    end_status(rt, end)
}

/// Says whether a folder is served.
#[tactic(auto, using(crate::proofs::EndLemmas::check_ends))]
fn check_tables(rt: &(impl Files + Print + Eprint + AllocGlobal), folder: &str) -> u8
    ensures { result ≢ USAGE }
{
    let mut out = Counted::new(io::writer(rt));
    let end = check_folder(rt.alloc(), &mut Disk::new(rt), folder, &mut out);
    end_status(rt, end)
}

/// Answers one GET of a target over a folder.
#[tactic(auto, using(crate::proofs::EndLemmas::query_ends))]
fn query(rt: &(impl Files + Print + Eprint + AllocGlobal), folder: &str, target: &str) -> u8
    ensures { result ≢ USAGE }
{
    let mut out = Counted::new(io::writer(rt));
    let end = program::query(rt.alloc(), &mut Disk::new(rt), folder, target, &mut out);
    end_status(rt, end)
}

/// Answers the stream of a file over a folder.
#[tactic(auto, using(crate::proofs::EndLemmas::answer_ends))]
fn answer_file(rt: &(impl Files + Print + Eprint + AllocGlobal), folder: &str, file: &str) -> u8
    ensures { result ≢ USAGE }
{
    match fs::open(rt, file) {
        Ok(opened) => {
            let mut input = Counted::new(opened);
            let mut out = Counted::new(io::writer(rt));
            let end = answer(rt.alloc(), &mut Disk::new(rt), folder, &mut input, &mut out);
            end_status(rt, end)
        }
        Err(error) => error_status(&error),
    }
}

/// Plays the script of a file over a folder. The file is read whole before the folder is loaded.
fn replay_file(rt: &(impl Files + Print + Eprint + AllocGlobal), folder: &str, file: &str) -> u8 {
    match fs::open(rt, file) {
        Ok(opened) => match read_script(rt.alloc(), &mut Counted::new(opened)) {
            Ok(script) => {
                let mut out = Counted::new(io::writer(rt));
                let mut disk = Disk::new(rt);
                let end = replay_script(rt.alloc(), &mut disk, folder, script.as_slice(), &mut out);
                end_status(rt, end)
            }
            Err(fault) => report(rt, &ProgramFault::Run(fault)),
        },
        Err(error) => error_status(&error),
    }
}

/// Serves a folder on a port of this machine.
#[tactic(auto, using(crate::proofs::EndLemmas::serve_ends))]
fn serve_folder<R>(rt: &R, folder: &str, port: u16, connections: u32) -> u8
where
    R: Files + Net<Listener = TcpListener, Stream = TcpStream> + Print + Eprint + AllocGlobal,
    ensures { result ≢ USAGE }
{
    let catalog = match Disk::new(rt).load(rt.alloc(), folder) {
        Ok(catalog) => catalog,
        Err(fault) => return report(rt, &ProgramFault::Folder(fault)),
    };
    match CountedListener::bind(rt, port) {
        Ok(mut listener) => {
            let mut out = Counted::new(io::writer(rt));
            let end = serve(rt.alloc(), &catalog, &mut listener, connections, &mut out);
            end_status(rt, end)
        }
        Err(error) => error_status(&error),
    }
}

/// Does what the words ask for, the first of which is the program's name. The status is that of usage if `clap` does not take them, or a script has a bad line.
pub fn line_status<R>(rt: &R, line: &[&str]) -> u8
where
    R: Files
        + Net<Listener = TcpListener, Stream = TcpStream>
        + Input
        + Print
        + Eprint
        + AllocGlobal,
    ensures usage { ¬ (IsTaken (texts line.now)) → (result ≡ USAGE) ⊎ (result ≡ MEMORY) }
    ensures taken { IsTaken (texts line.now) → (result ≢ USAGE) ⊎ AsksForReplay (texts line.now) }
{
    match read_words(rt.alloc(), line) {
        Ok(Words::Nothing) => answer_input(rt),
        Ok(Words::Check { folder }) => check_tables(rt, folder),
        Ok(Words::Query { folder, target }) => query(rt, folder, target),
        Ok(Words::Answer { folder, file }) => answer_file(rt, folder, file),
        Ok(Words::Replay { folder, script }) => replay_file(rt, folder, script),
        Ok(
            Words::Serve {
                folder,
                port,
                connections,
            },
        ) => serve_folder(rt, folder, port, connections),
        Err(WordsFault::Usage) => usage_status(rt),
        Err(WordsFault::NoMemory) => MEMORY,
    }
}

/// Does what the system's words ask for. Which words these are no clause says.
fn words_status<R>(rt: &R) -> io::Result<u8>
where
    R: Env
        + Files
        + Net<Listener = TcpListener, Stream = TcpStream>
        + Input
        + Print
        + Eprint
        + AllocGlobal,
{
    let words = system_words(rt)?;
    let line = line_of(rt.alloc(), words.as_slice())?;
    Ok(line_status(rt, line.as_slice()))
}

/// Does what the command line asks for, and gives the exit status: by [`line_status`], of the words that the system hands over.
pub fn command_status<R>(rt: &R) -> u8
where
    R: Env
        + Files
        + Net<Listener = TcpListener, Stream = TcpStream>
        + Input
        + Print
        + Eprint
        + AllocGlobal,
{
    match words_status(rt) {
        Ok(status) => status,
        Err(error) => unread_status(rt, &error),
    }
}
