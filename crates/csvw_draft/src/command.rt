//! What the words of the command line ask for, done: each command ends with an exit status.
use crate::draft::draft_folder;
use crate::explain::tell_folder;
use crate::status::{DEVICE, DONE, MEMORY, USAGE, status_of};
use cli_args::{ArgsFault, line_of, system_words};
use convert_folders::convert_folder;
use draft_args::{DraftCommand, USAGE_LINE, read_words};
use std::io::{self, ErrorKind, IsTerminal};
use std::rt::Files;

/// Prints how the program is called, and returns the exit status.
fn usage_status(rt: &HostRuntime) -> u8 {
    let _ = rt.eprintln(USAGE_LINE);
    USAGE
}

/// Reports that memory ran out, as far as that can be told, and returns the exit status.
fn memory_status(rt: &HostRuntime) -> u8 {
    let _ = rt.eprintln("not done: memory ran out");
    MEMORY
}

/// Reports why nothing was done with a folder, as far as that can be told, and returns the exit status.
fn device_status(rt: &HostRuntime, folder: &str) -> u8 {
    let cause = match rt.metadata(folder) {
        Ok(found) if found.is_dir() => {
            "a file of it, or the output, can't be read or written, or is no plain file"
        }
        Ok(_) => "it is no folder",
        Err(error) => match error.kind() {
            ErrorKind::NotFound => "there is no such folder",
            _ => "it can't be read",
        },
    };
    let _ = eprintln!(rt; "not done: {folder}: {cause}");
    DEVICE
}

/// Reports an end that has no line of its own yet, and returns its exit status.
fn end_of(rt: &HostRuntime, folder: &str, end: io::Result<u8>) -> u8 {
    match status_of(end) {
        DEVICE => device_status(rt, folder),
        MEMORY => memory_status(rt),
        status => status,
    }
}

/// Prints what the words ask `clap` to show, and returns the exit status.
fn show_text(rt: &HostRuntime, text: &clap::Error) -> io::Result<u8> {
    text.print(rt).and(Ok(DONE))
}

/// Does what the words ask for, or reports why there is nothing to do. If someone looks on, it reports long work.
fn words_status(rt: &HostRuntime, words: Result<DraftCommand<'_>, ArgsFault>) -> u8 {
    let (folder, end) = match words {
        Ok(DraftCommand::Draft(asks)) => (
            asks.folder,
            draft_folder(rt, &asks, rt.stderr().is_terminal()),
        ),
        Ok(DraftCommand::Show { folder }) => (folder, tell_folder(rt, folder, false)),
        Ok(DraftCommand::Explain { folder }) => (folder, tell_folder(rt, folder, true)),
        Ok(DraftCommand::Convert(asks)) => (asks.folder, convert_folder(rt, &asks)),
        Err(ArgsFault::Shows(text)) => return status_of(show_text(rt, &text)),
        Err(ArgsFault::Usage) => return usage_status(rt),
        Err(ArgsFault::NoMemory) => return memory_status(rt),
    };
    end_of(rt, folder, end)
}

/// Does what the command line asks for, and returns the exit status.
pub fn command_status(rt: &HostRuntime) -> u8 {
    let words = match system_words(rt) {
        Ok(words) => words,
        Err(error) => match error.kind() {
            // a word that is not UTF-8 is no word of the command
            ErrorKind::InvalidData => return usage_status(rt),
            ErrorKind::OutOfMemory => return memory_status(rt),
            _ => return device_status(rt, "."),
        },
    };
    match line_of(rt.alloc(), words.as_slice()) {
        Ok(line) => words_status(rt, read_words(rt.alloc(), line.as_slice())),
        Err(_) => memory_status(rt),
    }
}
