//! The draft of a folder.
ghost use Rattle.std.specs.Prelude.{List, IfOk};
ghost use Rattle.table_store.specs.File.{FileOf};
ghost use Rattle.folder_checks.specs.FolderChecks.{IsServedBy};

use crate::add::added_text;
use crate::check::check_folder;
use crate::folder::{csv_names, file_in, path_in};
use crate::guess::guess_files;
use crate::left_out::{refuse_files, warn_of_left_out};
use crate::status::DONE;
use crate::told::{SEE_EXPLAIN, no_memory, print_text, refuse_cause, refuse_for};
use crate::warning::warn_of;
use csvw_meta::{Limits, MetaFault, Schema, Schemas};
use draft_args::DraftOptions;
use schema_inference::{DraftFault, draft_text};
use served_folders::METADATA;
use std::alloc::Global;
use std::fs::File;
use std::io::{self, ErrorKind, Write};
use std::rt::Files;
use std::slice::from_ref;
use table_store::LoadFault;

/// What is said if the metadata would be written over.
const NOT_WRITTEN: &str = "csv-metadata.json: the folder has one, which stays as it is";

/// What is said if no file is drafted.
const NO_TABLES: &str = "no file of the folder is a table that is served";

/// What is said if more are drafted than are served.
const TOO_MANY_TABLES: &str = "accepted: 256 files at most";

/// What is said after the cause of a draft that the service refuses.
const DEFECT: &str =
    ": csvw_draft made this draft, and the service refuses it: please report it, with this line";

/// Reports why files have no draft, and returns the exit status.
fn refuse_fault(rt: &HostRuntime, fault: &DraftFault, add: bool) -> io::Result<u8> {
    match fault {
        DraftFault::NoTables => refuse_for(rt, NO_TABLES),
        DraftFault::TooManyTables => refuse_for(rt, TOO_MANY_TABLES),
        DraftFault::Refused(cause) if add => refuse_cause(rt, cause, SEE_EXPLAIN),
        DraftFault::Refused(cause) => refuse_cause(rt, cause, DEFECT),
        DraftFault::NoMemory => Err(no_memory()),
    }
}

/// Writes a text into the new file of a path. If it is not written whole, the file is taken away.
fn fill_file(rt: &HostRuntime, path: &str, mut file: File, text: &[u8]) -> io::Result<()> {
    match file.write_all(text) {
        Ok(()) => Ok(()),
        Err(error) => {
            let _ = rt.remove_file(path);
            Err(error)
        }
    }
}

/// Writes metadata at a path where nothing is, and returns the exit status.
fn write_metadata(rt: &HostRuntime, path: &str, text: &[u8]) -> io::Result<u8> {
    match File::create_new(rt, path) {
        Ok(file) => fill_file(rt, path, file, text)?,
        Err(error) => match error.kind() {
            ErrorKind::AlreadyExists => return refuse_for(rt, NOT_WRITTEN),
            _ => return Err(error),
        },
    }
    println!(rt; "wrote {path}").and(Ok(DONE))
}

/// Writes metadata at a path over what is there: beside it first, so that what is there is whole at each moment; and returns the exit status.
fn replace_metadata(rt: &HostRuntime, path: &str, text: &[u8]) -> io::Result<u8> {
    let new = format!(in rt.alloc(); "{path}.new")?;
    let file = File::create(rt, new.as_str())?;
    fill_file(rt, new.as_str(), file, text)?;
    if let Err(error) = rt.rename(new.as_str(), path) {
        let _ = rt.remove_file(new.as_str());
        return Err(error);
    }
    println!(rt; "wrote {path}").and(Ok(DONE))
}

/// Gives the text of metadata, with which a folder is served: prints it, or writes it at a path; and returns the exit status.
fn give_metadata(
    rt: &HostRuntime,
    asks: &DraftOptions<'_>,
    path: &str,
    text: &[u8],
) -> io::Result<u8>
    requires { (files : List FileOf) × IsServedBy text.now files }
{
    if asks.write && asks.add {
        replace_metadata(rt, path, text)
    } else if asks.write {
        write_metadata(rt, path, text)
    } else {
        print_text(rt, text)?;
        print_text(rt, b"\n")
    }
}

/// Returns the metadata of a folder with what is drafted that it does not have yet; as a fault why there is none.
fn added_draft(alloc: Global, json: &[u8], drafted: &mut [Schema]) -> Result<Vec<u8>, DraftFault> {
    let schemas = match Schemas::read(alloc, json, &Limits::greatest()) {
        Ok(schemas) => schemas,
        Err(MetaFault::NoMemory) => return Err(DraftFault::NoMemory),
        Err(fault) => return Err(DraftFault::Refused(LoadFault::Meta(fault))),
    };
    Ok(added_text(alloc, json, schemas.tables.as_slice(), drafted)?)
}

/// Returns the metadata of what is drafted, or what is drafted added to metadata; as a fault why there is none.
fn made_draft(
    alloc: Global,
    drafted: &mut [Schema],
    old: Option<&[u8]>,
) -> Result<Vec<u8>, DraftFault> {
    match old {
        Some(json) => added_draft(alloc, json, drafted),
        None => draft_text(alloc, Limits::greatest(), drafted),
    }
}

/// Returns a text for the metadata of a folder, if the folder is served with it.
fn checked_text(
    rt: &HostRuntime,
    folder: &str,
    made: Result<Vec<u8>, DraftFault>,
) -> io::Result<Result<Vec<u8>, DraftFault>>
    ensures { IfOk result (λ made. IfOk made (λ text.
        (files : List FileOf) × IsServedBy text.items files)) }
{
    let text = match made {
        Ok(text) => text,
        Err(fault) => return Ok(Err(fault)),
    };
    match check_folder(rt, folder, text.as_slice())? {
        Ok(()) => Ok(Ok(text)),
        Err(LoadFault::NoMemory) => Err(no_memory()),
        Err(fault) => Ok(Err(DraftFault::Refused(fault))),
    }
}

/// Drops the drafted keys that are none: a first column may seem to be the key.
fn drop_keys(rt: &HostRuntime, folder: &str, drafted: &mut [Schema]) -> io::Result<()> {
    for schema in drafted {
        if schema.key.is_empty() {
            continue;
        }
        let made = draft_text(rt.alloc(), Limits::greatest(), from_ref(schema));
        let checked = checked_text(rt, folder, made)?;
        if matches!(&checked, Err(fault) if fault.is_of_key()) {
            schema.key.clear();
        }
    }
    Ok(())
}

/// Returns the metadata of what is drafted, or what is drafted added to metadata: with it the folder is served.
fn checked_draft(
    rt: &HostRuntime,
    folder: &str,
    drafted: &mut [Schema],
    old: Option<&[u8]>,
) -> io::Result<Result<Vec<u8>, DraftFault>>
    ensures { IfOk result (λ made. IfOk made (λ text.
        (files : List FileOf) × IsServedBy text.items files)) }
{
    let made = made_draft(rt.alloc(), &mut *drafted, old);
    let checked = checked_text(rt, folder, made)?;
    if !matches!(&checked, Err(fault) if fault.is_of_key()) {
        return Ok(checked);
    }
    drop_keys(rt, folder, &mut *drafted)?;
    let made = made_draft(rt.alloc(), &mut *drafted, old);
    checked_text(rt, folder, made)
}

/// Returns the metadata of a folder, if it is asked for and there is one.
fn old_metadata(rt: &HostRuntime, asks: &DraftOptions<'_>) -> io::Result<Option<Vec<u8>>> {
    if !asks.add {
        return Ok(None);
    }
    match file_in(rt, asks.folder, METADATA) {
        Ok(json) => Ok(Some(json)),
        Err(error) => match error.kind() {
            ErrorKind::NotFound => Ok(None),
            _ => Err(error),
        },
    }
}

/// Reports what the publisher of files should look at, and gives their metadata as it is asked for.
fn give_draft(
    rt: &HostRuntime,
    asks: &DraftOptions<'_>,
    names: &[String],
    path: &str,
) -> io::Result<u8> {
    let mut guess = guess_files(rt, asks.folder, names, asks.keys)?;
    warn_of_left_out(rt, guess.left_out.as_slice(), names)?;
    warn_of(rt, &guess, names)?;
    let status = refuse_files(rt, asks, names, &guess)?;
    if status != DONE {
        return Ok(status);
    }
    let old = old_metadata(rt, asks)?;
    let drafted = guess.schemas.as_mut_slice();
    match checked_draft(rt, asks.folder, drafted, old.as_deref())? {
        Ok(text) => give_metadata(rt, asks, path, text.as_slice()),
        Err(fault) => refuse_fault(rt, &fault, asks.add),
    }
}

/// Drafts the metadata of a folder, and prints it, or writes it there. If someone looks on, it reports long work.
pub fn draft_folder(rt: &HostRuntime, asks: &DraftOptions<'_>, tells: bool) -> io::Result<u8> {
    let path = path_in(rt.alloc(), asks.folder, METADATA)?;
    if asks.write && !asks.add && rt.symlink_metadata(path.as_str()).is_ok() {
        refuse_for(rt, NOT_WRITTEN)
    } else {
        let names = csv_names(rt, asks.folder, tells)?;
        give_draft(rt, asks, names.as_slice(), path.as_str())
    }
}
