//! What the service understands of a folder, and why it refuses one.
use crate::folder::{file_in, is_csv};
use crate::status::DEVICE;
use crate::told::{SEE_EXPLAIN, no_memory, print_text, refuse, refuse_cause, refuse_for};
use catalog_sheet::catalog_text;
use convert_folders::names_in;
use csvw_meta::{Limits, MetaFault, Schema, Schemas};
use diagnostics::{Line, Report, cut, refuse_metadata, refuse_table};
use served_folders::{Disk, FolderFault, Folders, METADATA};
use std::io::{self, ErrorKind};
use std::mem::replace;
use table_store::{Catalog, LoadFault};

/// What is said last of what helps.
const LAST_HELP: &str =
    "help: csvw_draft explain FOLDER prints accepted when nothing is left to fix\n";

/// What is said of a folder without metadata.
const NO_METADATA: &str =
    "csv-metadata.json: NoMetadata: the folder has no such file; accepted: one, as csvw_draft FOLDER --write makes it";

/// Adds what is refused of tables, in the order of the metadata, until there are as many refusals as are reported.
fn refuse_schemas(
    rt: &HostRuntime,
    folder: &str,
    schemas: &[Schema],
    report: &mut Report,
) -> io::Result<()> {
    for schema in schemas {
        if report.is_full() {
            return Ok(());
        }
        match file_in(rt, folder, schema.url.as_str()) {
            Ok(bytes) => refuse_table(report, schema, Some(bytes.as_slice())),
            Err(error) => match error.kind() {
                ErrorKind::NotFound => refuse_table(report, schema, None),
                _ => return Err(error),
            },
        }
    }
    Ok(())
}

/// Adds what is refused of a folder.
fn refuse_folder(rt: &HostRuntime, folder: &str, report: &mut Report) -> io::Result<()> {
    let metadata = file_in(rt, folder, METADATA)?;
    match Schemas::read(rt.alloc(), metadata.as_slice(), &Limits::greatest()) {
        Ok(schemas) => refuse_schemas(rt, folder, schemas.tables.as_slice(), report),
        Err(fault) => {
            report.is_short |= matches!(fault, MetaFault::NoMemory);
            refuse_metadata(report, metadata.as_slice());
            Ok(())
        }
    }
}

/// Reports all that is refused of a folder that is refused for a cause, and what helps; and returns the exit status.
fn explain_cause(rt: &HostRuntime, folder: &str, cause: &LoadFault) -> io::Result<u8> {
    let mut report = Report::new(rt.alloc());
    refuse_folder(rt, folder, &mut report)?;
    let mut helps = replace(&mut report.helps, Line::new(rt.alloc()));
    helps.push(LAST_HELP);
    let lines = report.end(cause)?;
    refuse(rt, lines.as_slice(), &helps)
}

/// Reports why a folder has no catalog, and returns the exit status.
fn tell_fault(
    rt: &HostRuntime,
    folder: &str,
    fault: &FolderFault,
    explains: bool,
) -> io::Result<u8> {
    match fault {
        FolderFault::NoMetadata => refuse_for(rt, NO_METADATA),
        FolderFault::Load(LoadFault::NoMemory) | FolderFault::NoMemory => Err(no_memory()),
        FolderFault::Load(cause) if explains => explain_cause(rt, folder, cause),
        FolderFault::Load(cause) => refuse_cause(rt, cause, SEE_EXPLAIN),
        FolderFault::Device => Ok(DEVICE),
    }
}

/// Returns true if a table of a catalog is that of a file.
fn has_table(catalog: &Catalog, file: &str) -> bool {
    for table in catalog.tables() {
        if table.schema().url.as_str() == file {
            return true;
        }
    }
    false
}

/// Prints what the service understands of the tables of a folder, and reports the CSV files that no table names.
fn show_catalog(rt: &HostRuntime, folder: &str, catalog: &Catalog) -> io::Result<u8> {
    let text = catalog_text(rt.alloc(), catalog)?;
    for name in names_in(rt, folder)? {
        if is_csv(name.as_str()) && !has_table(catalog, name.as_str()) {
            let name = cut(rt.alloc(), name.as_str())?;
            eprintln!(rt; "not published: {name}: csvw_draft FOLDER --add drafts it")?;
        }
    }
    print_text(rt, text.as_slice())
}

/// Prints what the service understands of a folder, or reports why it is refused; and returns the exit status. To explain is to tell of all that is refused of it, a line for
/// each, or that it is accepted.
pub fn tell_folder(rt: &HostRuntime, folder: &str, explains: bool) -> io::Result<u8> {
    match Disk::new(rt).load(rt.alloc(), folder) {
        Ok(_) if explains => print_text(rt, b"accepted\n"),
        Ok(catalog) => show_catalog(rt, folder, &catalog),
        Err(fault) => tell_fault(rt, folder, &fault, explains),
    }
}
