//! Files that are read in pieces.
use served_folders::look;
use std::fs::{self, File};
use std::io::{self, ErrorKind, Read};

/// The most bytes that are read at once.
const PIECE: u64 = 524_288;

/// A plain file that is read in pieces.
#[derive(Drop)]
pub struct FilePieces {
    file: File,
    pub piece: Vec<u8>,
}

impl FilePieces {
    /// Opens the plain file at a path. What is none is an invalid input: the end of a FIFO never comes.
    pub fn open(rt: &HostRuntime, path: &str) -> io::Result<FilePieces> {
        if !look(rt, path, true)?.is_file() {
            return Err(io::Error::from(ErrorKind::InvalidInput));
        }
        Ok(FilePieces {
            file: fs::open(rt, path)?,
            piece: Vec::new(rt.alloc()),
        })
    }

    /// Reads the next piece. Returns false at the end of the file.
    pub fn read(&mut self) -> io::Result<bool> {
        self.piece.clear();
        let mut front = self.file.by_ref().take(PIECE);
        front.read_to_end(&mut self.piece)?;
        Ok(!self.piece.is_empty())
    }
}
