//! The tables that files of a folder become.
ghost use Rattle.std.specs.Prelude.{ℕ, List, IfOk, IsErr};
ghost use Rattle.table_store.specs.File.{FileOf};
ghost use Rattle.folder_checks.specs.FolderChecks.{IsCheckingFolder};
ghost use Rattle.csvw_meta.specs.Schema.{schema_view};
ghost use Rattle.convert_folders.specs.Conversions.{ChecksConversion, IsCheckedConversion, IsServedConversion};

use crate::metadata::metadata_of;
use crate::places::table_of;
use crate::publish::{Half, path_in};
use crate::rules::{ColumnRule, rules_of};
use csvw_meta::Schema;
use draft_args::Conversion;
use file_convert::{ConvertFault, ConvertOptions, Found, Rule};
use file_passes::{SourceFile, write_file};
use file_sights::PassFault;
use folder_checks::{CheckFault, FileCheck, FolderCheck};
use schema_inference::DraftFault;
use std::io::{self, ErrorKind, IsTerminal};
use table_store::LoadFault;

/// A table that a file becomes: the name of that, how many bytes it has, what is found in its columns, and the schema.
#[derive(Drop)]
pub(crate) struct Table {
    pub(crate) file: String,
    pub(crate) bytes: usize,
    pub(crate) found: Option<Found>,
    pub(crate) schema: Schema,
}

/// What tables are written by: what is asked for, in their columns too, and the new folder.
#[derive(Clone, Copy)]
pub(crate) struct Writing<'a> {
    pub(crate) asks: &'a Conversion<'a>,
    pub(crate) rules: &'a [ColumnRule<'a>],
    pub(crate) half: &'a Half,
}

/// The most bytes whose conversion is not shown.
const SHORT: usize = 50_000_000;

/// Writes that the conversion of `name`, which has that number of `bytes`, has come to `step`. Writes nothing for 50 MB or less, or if standard error is no terminal.
pub(crate) fn show(rt: &HostRuntime, name: &str, bytes: usize, step: &str) -> io::Result<()> {
    if bytes <= SHORT || !rt.stderr().is_terminal() {
        return Ok(());
    }
    let millions = bytes / 1_000_000;
    eprintln!(rt; "{name}: {millions} MB: {step}")
}

/// Returns the file at a path, with what is asked for in it and in its columns.
pub(crate) fn source_of<'a>(
    asks: &Conversion<'a>,
    path: &'a str,
    rules: &'a [Rule<'a>],
) -> SourceFile<'a> {
    SourceFile {
        path,
        asked: ConvertOptions {
            skip_lines: asks.skip_lines.unwrap_or(0) as usize,
            pads: asks.pad,
            rounds: asks.round,
            null: asks.null,
            rules,
        },
    }
}

/// Returns the error that a fault of a file is which was found before: it has changed.
fn error_of(fault: PassFault) -> io::Error {
    match fault {
        PassFault::Device(error) => error,
        PassFault::Refused(ConvertFault::NoMemory) => io::Error::from(ErrorKind::OutOfMemory),
        PassFault::Refused(_) => io::Error::from(ErrorKind::InvalidData),
    }
}

/// Writes the file of a table into the new folder and checks it, but for its end. Returns why the table is refused if it is.
fn put_file(
    rt: &HostRuntime,
    source: &SourceFile<'_>,
    half: &Half,
    table: &mut Table,
    schema: &Schema,
) -> io::Result<Result<FileCheck, CheckFault>>
    ensures { IfOk result (λ made. IfOk made (IsCheckedConversion (schema_view schema.now))) }
{
    let Some(found) = table.found.take() else {
        return Err(io::Error::from(ErrorKind::Other));
    };
    let mut to = half.create(rt, table.schema.url.as_str())?;
    match write_file(rt, source, found, schema, &mut to) {
        Ok(Ok((found, file))) => {
            table.found = Some(found);
            Ok(Ok(file))
        }
        Ok(Err(fault)) => Ok(Err(fault)),
        Err(fault) => Err(error_of(fault)),
    }
}

/// Converts the file of a table into the new folder. Returns its check, or why the table is refused.
fn convert_table(
    rt: &HostRuntime,
    by: Writing<'_>,
    table: &mut Table,
    schema: &Schema,
) -> io::Result<Result<FileCheck, CheckFault>>
    ensures { IfOk result (λ made. IfOk made (IsCheckedConversion (schema_view schema.now))) }
{
    show(rt, table.file.as_str(), table.bytes, "converting")?;
    let rules = rules_of(rt.alloc(), by.rules, table_of(table.schema.url.as_str()))?;
    let path = path_in(rt, by.asks.folder, table.file.as_str())?;
    let source = source_of(by.asks, path.as_str(), rules.as_slice());
    put_file(rt, &source, by.half, table, schema)
}

/// Writes the file of the next table into the new folder and checks it. Returns why the folder is refused if the table is.
fn write_table(
    rt: &HostRuntime,
    by: Writing<'_>,
    table: &mut Table,
    check: FolderCheck,
) -> io::Result<Result<FolderCheck, LoadFault>>
    requires { (meta : List ℕ) × (files : List FileOf) × IsCheckingFolder meta files check }
    ensures { IfOk result (λ made. IfOk made (λ new. ChecksConversion check new)) }
{
    let Some(schema) = check.schema() else {
        return Err(io::Error::from(ErrorKind::Other));
    };
    match convert_table(rt, by, table, schema)? {
        Ok(file) => Ok(check.end_table(rt.alloc(), file)),
        Err(fault) => Ok(Err(check.refuse(fault))),
    }
}

/// Returns that the service refuses the tables, if memory has not run out.
fn refused(fault: LoadFault) -> io::Result<Result<Vec<u8>, DraftFault>>
    ensures { IfOk result IsErr }
{
    match fault {
        LoadFault::NoMemory => Err(io::Error::from(ErrorKind::OutOfMemory)),
        fault => Ok(Err(DraftFault::Refused(fault))),
    }
}

/// Writes the files of the tables, each of which is checked as it is written. Returns the metadata: with it the folder of these files is served.
fn write_tables(
    rt: &HostRuntime,
    by: Writing<'_>,
    tables: &mut [Table],
) -> io::Result<Result<Vec<u8>, DraftFault>>
    ensures { IfOk result (λ made. IfOk made (λ text. IsServedConversion text.items)) }
{
    let text = match metadata_of(rt.alloc(), &*tables) {
        Ok(text) => text,
        Err(fault) => return Ok(Err(fault)),
    };
    let mut check = match FolderCheck::start(rt.alloc(), text.as_slice()) {
        Ok(check) => check,
        Err(fault) => return refused(fault),
    };
    for table in tables {
        match write_table(rt, by, table, check)? {
            Ok(on) => check = on,
            Err(fault) => return refused(fault),
        }
    }
    if check.schema().is_some() {
        return Err(io::Error::from(ErrorKind::Other));
    }
    check.end();
    Ok(Ok(text))
}

/// Drops the drafted keys that are none: a first column may seem to be the key.
fn drop_keys(rt: &HostRuntime, by: Writing<'_>, tables: &mut [Table]) -> io::Result<()> {
    let half = &Half::new(rt, "", true)?;
    let by = Writing { half, ..by };
    for place in 0..tables.len() {
        let one = &mut tables[place..place + 1];
        if one[0].schema.key.is_empty() {
            continue;
        }
        let made = write_tables(rt, by, &mut *one)?;
        if matches!(&made, Err(fault) if fault.is_of_key()) {
            one[0].schema.key.clear();
        }
    }
    Ok(())
}

/// Writes the files of the tables, without keys that are none. Returns the metadata: with it the folder of these files is served.
pub(crate) fn write_folder(
    rt: &HostRuntime,
    by: Writing<'_>,
    tables: &mut [Table],
) -> io::Result<Result<Vec<u8>, DraftFault>>
    ensures { IfOk result (λ made. IfOk made (λ text. IsServedConversion text.items)) }
{
    let made = write_tables(rt, by, &mut *tables)?;
    if !matches!(&made, Err(fault) if fault.is_of_key()) {
        return Ok(made);
    }
    by.half.clear(rt)?;
    drop_keys(rt, by, &mut *tables)?;
    write_tables(rt, by, tables)
}
