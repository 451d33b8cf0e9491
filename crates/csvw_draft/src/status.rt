//! The exit statuses of the program.
use std::io::{self, ErrorKind};

/// The exit status if all was done.
pub const DONE: u8 = 0;

/// The exit status of a refused folder.
pub const REFUSED: u8 = 1;

/// The exit status of words that are no command of the program.
pub const USAGE: u8 = 2;

/// The exit status if a file can't be read or written, or is no plain file.
pub const DEVICE: u8 = 3;

/// The exit status if memory runs out.
pub const MEMORY: u8 = 4;

/// Returns the exit status of an end: its own, or that of an error of the system.
pub fn status_of(end: io::Result<u8>) -> u8 {
    match end {
        Ok(status) => status,
        Err(error) => match error.kind() {
            ErrorKind::OutOfMemory => MEMORY,
            _ => DEVICE,
        },
    }
}
