//! What is taken of a folder on a disk before its tables: `csv-metadata.json`, of which at most one byte more than the limit of a file is read. The files are looked at.
ghost use Rattle.std.specs.Prelude.{◌≡◌, ◌≢◌, ◌≤◌, ◌+◌, None, IfErr, IfOk, IfSome, vec_len};
ghost use Rattle.std.specs.IoError.{error_kind};
ghost use Rattle.csvw_meta.specs.declared.limits.TheConstants.{MOST_FILE_BYTES};
ghost use Rattle.served_folders.specs.Folders.{IsRefusalOf};

use crate::folders::FolderFault;
use crate::names::METADATA;
use crate::plain::{is_too_large, plain_len, read_plain};
use std::alloc::Global;
use std::io::{self, ErrorKind};
use std::rt::Files;

/// Returns the fault that an error of a file is.
pub(crate) fn device_fault(error: &io::Error) -> FolderFault
    ensures memory { error_kind error.now ≡ ErrorKind.OutOfMemory → result ≡ FolderFault.NoMemory }
    ensures device { error_kind error.now ≢ ErrorKind.OutOfMemory → result ≡ FolderFault.Device }
    ensures fault { IsRefusalOf None result }
{
    match error.kind() {
        ErrorKind::OutOfMemory => FolderFault::NoMemory,
        _ => FolderFault::Device,
    }
}

/// Returns the bytes of a plain file of a folder, if there is anything of that name.
fn take_file<R: Files>(
    alloc: Global,
    files: &R,
    follows: bool,
    folder: &str,
    name: &str,
) -> Result<Option<Vec<u8>>, FolderFault>
    ensures most { IfOk result (λ file.
        IfSome file (λ bytes. vec_len bytes ≤ MOST_FILE_BYTES + 1)) }
    ensures fault { IfErr result (IsRefusalOf None) }
{
    let path = format!(in alloc; "{folder}/{name}")?;
    match read_plain(alloc, files, path.as_str(), follows) {
        Ok(bytes) => Ok(Some(bytes)),
        Err(error) if error.kind() == ErrorKind::NotFound => Ok(None),
        Err(error) => Err(device_fault(&error)),
    }
}

/// Returns how many bytes the plain file of a folder has: none if there is nothing of that name.
fn file_len<R: Files>(
    alloc: Global,
    files: &R,
    follows: bool,
    folder: &str,
    name: &str,
) -> Result<u64, FolderFault>
    ensures { IfErr result (IsRefusalOf None) }
{
    let path = format!(in alloc; "{folder}/{name}")?;
    match plain_len(files, path.as_str(), follows) {
        Ok(length) => Ok(length),
        Err(error) if error.kind() == ErrorKind::NotFound => Ok(0),
        Err(error) => Err(device_fault(&error)),
    }
}

/// Looks at files of a folder before the first is read, so that none is read in vain: what is no plain file is a device that fails.
pub(crate) fn look_at<R: Files>(
    alloc: Global,
    files: &R,
    follows: bool,
    folder: &str,
    names: &[String],
) -> Result<(), FolderFault>
    ensures { IfErr result (IsRefusalOf None) }
{
    for name in names {
        file_len(alloc, files, follows, folder, name.as_str())?;
    }
    Ok(())
}

/// Returns the metadata of a folder, if it has some. Of metadata over the limit no byte is taken: it is refused as a text of none is, since neither is JSON.
pub(crate) fn take_metadata<R: Files>(
    alloc: Global,
    files: &R,
    follows: bool,
    folder: &str,
) -> Result<Option<Vec<u8>>, FolderFault>
    ensures most { IfOk result (λ file.
        IfSome file (λ bytes. vec_len bytes ≤ MOST_FILE_BYTES + 1)) }
    ensures fault { IfErr result (IsRefusalOf None) }
{
    if is_too_large(file_len(alloc, files, follows, folder, METADATA)?) {
        return Ok(Some(Vec::new(alloc)));
    }
    take_file(alloc, files, follows, folder, METADATA)
}
