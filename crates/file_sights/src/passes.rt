//! The passes over a file before it is converted: it is looked at, and its cells are seen.
use crate::look::{FileLook, Looked};
use crate::pieces::FilePieces;
use crate::seeing::Seeing;
use file_convert::{ConvertFault, ConvertOptions, Found};
use std::io;

/// Why a file is not converted.
#[derive(Drop)]
pub enum PassFault {
    Refused(ConvertFault),
    /// It cannot be read, or the new one cannot be written.
    Device(io::Error),
}

impl From<ConvertFault> for PassFault {
    fn from(fault: ConvertFault) -> PassFault {
        PassFault::Refused(fault)
    }
}

impl From<io::Error> for PassFault {
    fn from(error: io::Error) -> PassFault {
        PassFault::Device(error)
    }
}

/// Looks at the pieces of a file.
fn look_at(pieces: &mut FilePieces, look: &mut FileLook) -> Result<(), PassFault> {
    for _piece in 0..u64::MAX {
        if !pieces.read()? {
            break;
        }
        look.feed(pieces.piece.as_slice())?;
    }
    Ok(())
}

/// Returns what a file looks like.
fn look(rt: &HostRuntime, path: &str, asked: &ConvertOptions<'_>) -> Result<Looked, PassFault> {
    let mut look = FileLook::new(rt.alloc());
    look_at(&mut FilePieces::open(rt, path)?, &mut look)?;
    Ok(look.end(asked)?)
}

/// Sees the cells of the pieces of a file that follow the first.
fn see_rest(pieces: &mut FilePieces, seeing: &mut Seeing<'_>) -> Result<(), PassFault> {
    for _piece in 0..u64::MAX {
        if !pieces.read()? {
            break;
        }
        seeing.feed(pieces.piece.as_slice())?;
    }
    Ok(())
}

/// Returns what is found in the columns of a file, of which nothing is read yet.
fn see(
    rt: &HostRuntime,
    pieces: &mut FilePieces,
    asked: &ConvertOptions<'_>,
    looked: Looked,
) -> Result<Found, PassFault> {
    pieces.read()?;
    let mut seeing = Seeing::start(rt.alloc(), *asked, looked, pieces.piece.as_slice())?;
    see_rest(pieces, &mut seeing)?;
    Ok(seeing.end()?)
}

/// Returns what is found in a file before it is written.
pub fn found_in(
    rt: &HostRuntime,
    path: &str,
    asked: &ConvertOptions<'_>,
) -> Result<Found, PassFault> {
    let looked = look(rt, path, asked)?;
    see(rt, &mut FilePieces::open(rt, path)?, asked, looked)
}
