//! Plain files alone are opened: the end of a FIFO, a socket or a device never comes, and a folder has no bytes.
ghost use Rattle.std.specs.Prelude.{◌≡◌, ◌<◌, ◌≤◌, ◌+◌, ◌↔◌, IsTrue, true, length, take, IfErr, IfOk, IsOk, vec_len};
ghost use Rattle.std.specs.Io.KnownBytes.{Consumes, IsAtEnd};
ghost use Rattle.std.specs.Fs.{IsFile, file_type};
ghost use Rattle.std.specs.IoError.{error_kind};
ghost use Rattle.served_folders.specs.Disk.{HasReadOn, IsFrontOfSome};

use csvw_meta::MOST_FILE_BYTES;
use std::alloc::Global;
use std::fs::{self, Metadata, OpenFile};
use std::io::{self, ErrorKind, Read};
use std::os::unix::fs::MetadataExt;
use std::rt::Files;

/// Returns what the system reports of a file, if that is a plain one.
fn plain(found: Metadata) -> io::Result<Metadata>
    ensures some { IsOk result ↔ IsFile (file_type found) }
    ensures same { IfOk result (λ same. same ≡ found) }
    ensures kind { IfErr result (λ error. error_kind error ≡ ErrorKind.InvalidInput) }
{
    if found.is_file() {
        Ok(found)
    } else {
        Err(io::Error::from(ErrorKind::InvalidInput))
    }
}

/// Returns what the system reports of a path: of the target of a link if links are followed, else of the link.
pub fn look<R: Files>(files: &R, path: &str, follows: bool) -> io::Result<Metadata> {
    if follows {
        fs::metadata(files, path)
    } else {
        fs::symlink_metadata(files, path)
    }
}

/// Returns how many bytes the plain file at a path has. What is none is an invalid input.
pub(crate) fn plain_len<R: Files>(files: &R, path: &str, follows: bool) -> io::Result<u64> {
    let found = plain(look(files, path, follows)?)?;
    Ok(found.len())
}

/// Returns true if a file of `length` bytes is over the limit.
pub fn is_too_large(length: u64) -> bool
    ensures { IsTrue result ↔ (MOST_FILE_BYTES < length) }
{
    length > u64::from(MOST_FILE_BYTES)
}

/// Returns true if both are of one file of one device.
fn is_same(one: &Metadata, other: &Metadata) -> bool {
    one.dev() == other.dev() && one.ino() == other.ino()
}

/// The most bytes that are read of a file at once.
const PIECE: usize = 524_288;

/// Reads once from a file, anew if the call was interrupted.
fn read_once<F: Read>(file: &mut F, room: &mut [u8]) -> io::Result<usize>
    ensures most { IfOk result (λ count. count ≤ length room.new) }
    ensures bytes { IfOk result (λ count.
        Consumes (F.remaining file.old) (F.remaining file.new) (take count room.new)) }
    ensures end { IfOk result (λ count.
        count ≡ 0 → 0 < length room.old → IsAtEnd (F.remaining file.new)) }
{
    for _try in 0..u64::MAX {
        match file.read(room) {
            Err(error) if error.kind() == ErrorKind::Interrupted => {}
            other => return other,
        }
    }
    Err(io::Error::from(ErrorKind::Interrupted))
}

/// Reads on in a file of which `bytes` are read: at most [`PIECE`] more, and at most one more than the limit of a file in all. Returns whether there may be more.
pub fn read_piece<F: Read>(file: &mut F, bytes: &mut Vec<u8>) -> io::Result<bool>
    requires { vec_len bytes.old ≤ MOST_FILE_BYTES + 1 }
    ensures most { vec_len bytes.new ≤ MOST_FILE_BYTES + 1 }
    ensures on { IfOk result (λ more. more ≡ true → vec_len bytes.old < vec_len bytes.new) }
    // If the file reports its bytes.
    ensures bytes { IfOk result (HasReadOn (F.remaining file.old) (F.remaining file.new)
        bytes.old.items bytes.new.items) }
{
    let start = bytes.len();
    let left = MOST_FILE_BYTES as usize + 1 - start;
    let spare = bytes.capacity() - start;
    let room = if spare == 0 { PIECE } else { spare.min(PIECE) };
    bytes.resize(start + room.min(left), 0)?;
    let count = read_once(file, &mut bytes[start..])?;
    bytes.truncate(start + count);
    Ok(count > 0)
}

/// Opens the plain file at a path. Returns it, and how many bytes the system reports that it has. A link there is followed, or is no plain file. What is none is an invalid
/// input: it is looked at before it is opened, since opening a FIFO waits for who writes into it; and what was opened is looked at too, since another file may be there by
/// then.
pub fn open_plain<R: Files>(files: &R, path: &str, follows: bool) -> io::Result<(R::File, u64)> {
    let found = plain(look(files, path, follows)?)?;
    let file = fs::open(files, path)?;
    let opened = plain(file.metadata()?)?;
    if !follows && !is_same(&found, &opened) {
        return Err(io::Error::from(ErrorKind::InvalidInput));
    }
    let length = opened.len();
    Ok((file, length))
}

/// Returns the bytes of the plain file at a path, or one more than the limit, as it is opened by [`open_plain`]. Memory is allocated once, by the length that the system reports.
pub fn read_plain<R: Files>(
    alloc: Global,
    files: &R,
    path: &str,
    follows: bool,
) -> io::Result<Vec<u8>>
    ensures most { IfOk result (λ bytes. vec_len bytes ≤ MOST_FILE_BYTES + 1) }
    // If files report their bytes.
    ensures bytes { IfOk result (λ bytes. IsFrontOfSome R.File.remaining bytes.items) }
{
    let (mut file, length) = open_plain(files, path, follows)?;
    let most = u64::from(MOST_FILE_BYTES) + 1;
    let room = length.saturating_add(1).min(most);
    let mut bytes = Vec::with_capacity(alloc, room as usize)?;
    while read_piece(&mut file, &mut bytes)? {}
    Ok(bytes)
}
