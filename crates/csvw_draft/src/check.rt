//! Whether a folder is served with a text for its metadata, each file read in pieces.
ghost use Rattle.std.specs.Prelude.{◌<◌, ℕ, List, IfOk};
ghost use Rattle.csvw_meta.specs.Schema.{schema_view};
ghost use Rattle.table_store.specs.File.{FileOf};
ghost use Rattle.folder_checks.specs.Checks.{IsChecking};
ghost use Rattle.folder_checks.specs.FolderChecks.{tables_left, IsCheckingFolder, IsServedBy};

use crate::folder::path_in;
use csvw_meta::{MOST_FILE_BYTES, Schema};
use folder_checks::{CheckFault, FileCheck, FolderCheck};
use served_folders::{is_too_large, open_plain, read_piece};
use std::alloc::Global;
use std::io::{self, ErrorKind, Read};
use table_store::LoadFault;

/// Gives a file that was opened to its check. Returns that, or why the table is refused.
fn check_file<F: Read + Drop>(
    alloc: Global,
    mut file: F,
    schema: &Schema,
) -> io::Result<Result<FileCheck, CheckFault>>
    ensures { IfOk result (λ found. IfOk found (λ check.
        (given : List ℕ) × IsChecking (schema_view schema.now) given check)) }
{
    let mut check = FileCheck::start(alloc);
    let mut piece = Vec::new(alloc);
    for _piece in 0..=MOST_FILE_BYTES {
        piece.clear();
        if !read_piece(&mut file, &mut piece)? {
            return Ok(Ok(check));
        }
        if check.given() + piece.len() > MOST_FILE_BYTES as usize {
            break;
        }
        match check.feed(alloc, schema, piece.as_slice()) {
            Ok(on) => check = on,
            Err(fault) => return Ok(Err(CheckFault::File(fault))),
        }
    }
    Ok(Err(CheckFault::TooLarge))
}

/// Checks the file of a table in a folder, but for its end.
fn check_path(
    rt: &HostRuntime,
    folder: &str,
    schema: &Schema,
) -> io::Result<Result<FileCheck, CheckFault>>
    ensures { IfOk result (λ found. IfOk found (λ check.
        (given : List ℕ) × IsChecking (schema_view schema.now) given check)) }
{
    let path = path_in(rt.alloc(), folder, schema.url.as_str())?;
    match open_plain(rt, path.as_str(), true) {
        Ok((file, length)) => {
            if is_too_large(length) {
                return Ok(Err(CheckFault::TooLarge));
            }
            check_file(rt.alloc(), file, schema)
        }
        Err(error) => match error.kind() {
            ErrorKind::NotFound => Ok(Err(CheckFault::Missing)),
            _ => Err(error),
        },
    }
}

/// Checks the next table of a folder. Returns why the folder is refused if the table is.
fn check_table(
    rt: &HostRuntime,
    folder: &str,
    check: FolderCheck,
) -> io::Result<Result<FolderCheck, LoadFault>>
    requires { (meta : List ℕ) × (files : List FileOf) × IsCheckingFolder meta files check }
    ensures fewer { IfOk result (λ made. IfOk made (λ new. tables_left new < tables_left check)) }
    ensures checks { IfOk result (λ made. IfOk made (λ new. (meta : List ℕ) (files : List FileOf)
        → IsCheckingFolder meta files check
        → (all : List FileOf) × IsCheckingFolder meta all new)) }
{
    let Some(schema) = check.schema() else {
        return Err(io::Error::from(ErrorKind::Other));
    };
    match check_path(rt, folder, schema)? {
        Ok(file) => Ok(check.end_table(rt.alloc(), file)),
        Err(fault) => Ok(Err(check.refuse(fault))),
    }
}

/// Checks a folder with that text for its metadata: whether it is served, or else why it is refused.
pub fn check_folder(
    rt: &HostRuntime,
    folder: &str,
    text: &[u8],
) -> io::Result<Result<(), LoadFault>>
    ensures { IfOk result (λ made. IfOk made (λ _.
        (files : List FileOf) × IsServedBy text.now files)) }
{
    let mut check = match FolderCheck::start(rt.alloc(), text) {
        Ok(check) => check,
        Err(fault) => return Ok(Err(fault)),
    };
    while check.schema().is_some() {
        match check_table(rt, folder, check)? {
            Ok(on) => check = on,
            Err(fault) => return Ok(Err(fault)),
        }
    }
    check.end();
    Ok(Ok(()))
}
