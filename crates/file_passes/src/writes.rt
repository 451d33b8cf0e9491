//! The pass over a file in which it is written and checked.
ghost use Rattle.std.specs.Prelude.{◌++◌, ℕ, List, IfOk};
ghost use Rattle.csvw_meta.specs.Schema.{schema_view};
ghost use Rattle.folder_checks.specs.Checks.{IsChecking};
ghost use Rattle.file_passes.specs.Passes.{IsCheckedAs};

use crate::passes::{Pass, SourceFile, found_again};
use csvw_meta::{MOST_FILE_BYTES, Schema};
use file_convert::Found;
use file_sights::PassFault;
use folder_checks::{CheckFault, FileCheck};
use std::alloc::Global;
use std::fs::File;
use std::io::{self, Write};

/// Writes out bytes, if there is a file for them.
fn put(to: &mut Option<File>, out: &[u8]) -> io::Result<()> {
    match to {
        Some(file) => file.write_all(out),
        None => Ok(()),
    }
}

/// Gives the next bytes of a file to its check.
fn check_on(
    alloc: Global,
    check: FileCheck,
    schema: &Schema,
    out: &[u8],
) -> Result<FileCheck, CheckFault>
    requires { (made : List ℕ) × IsChecking (schema_view schema.now) made check }
    ensures { IfOk result (λ new. (made : List ℕ) → IsChecking (schema_view schema.now) made check
        → IsChecking (schema_view schema.now) (made ++ out.now) new) }
{
    if check.given() + out.len() > MOST_FILE_BYTES as usize {
        return Err(CheckFault::TooLarge);
    }
    match check.feed(alloc, schema, out) {
        Ok(check) => Ok(check),
        Err(fault) => Err(CheckFault::File(fault)),
    }
}

/// What is found in a file that was written, and its check.
pub type Written = Result<(Found, FileCheck), CheckFault>;

/// Writes a file whose columns are found into a new one, which reaches its device, if there is one, and gives the same bytes to the check of its table.
pub fn write_file(
    rt: &HostRuntime,
    source: &SourceFile<'_>,
    found: Found,
    schema: &Schema,
    to: &mut Option<File>,
) -> Result<Written, PassFault>
    ensures { IfOk result (λ written. IfOk written (λ end.
        IsCheckedAs source.now.asked (schema_view schema.now) end.1)) }
{
    let mut pass = Pass::start(rt, source, found)?;
    let mut check = FileCheck::start(rt.alloc());
    for _piece in 0..u64::MAX {
        if !pass.next()? {
            break;
        }
        put(&mut *to, pass.out.as_slice())?;
        match check_on(rt.alloc(), check, schema, pass.out.as_slice()) {
            Ok(on) => check = on,
            Err(fault) => return Ok(Err(fault)),
        }
    }
    let (converted, rest) = pass.end()?;
    put(&mut *to, rest.as_slice())?;
    if let Some(file) = to {
        file.sync_all()?;
    }
    match check_on(rt.alloc(), check, schema, rest.as_slice()) {
        Ok(check) => Ok(Ok((found_again(converted), check))),
        Err(fault) => Ok(Err(fault)),
    }
}
