//! The conversion of a folder's files into a new folder that is served.
use crate::changes::report_changes;
use crate::metadata::fit_schema;
use crate::places::{table_of, tables_in};
use crate::publish::{Half, REFUSED, path_in, publish};
use crate::refusals::{report_left_out, report_refusal};
use crate::report::Report;
use crate::rules::{ColumnRule, rules_in, rules_of};
use crate::tables::{Table, show, source_of};
use crate::warnings::report_warnings;
use csvw_meta::{Limits, Schema};
use draft_args::Conversion;
use file_convert::ColumnReport;
use file_passes::{SourceFile, found_again, look_again, look_first};
use file_sights::{PassFault, found_in};
use schema_inference::{Aims, Guesser, LeftOutCause, TableGuess};
use std::io::{self, ErrorKind};
use std::rt::Files;

/// What is drafted so far.
#[derive(Drop)]
struct Folder {
    tables: Vec<Table>,
    report: Report,
    /// How many files are refused.
    refused: usize,
}

/// Returns the schema of a table that is made of a file, and reports what its publisher should look at.
fn schema_of(
    rt: &HostRuntime,
    report: &mut Report,
    name: &str,
    mut guesser: Guesser,
    made: (&[ColumnReport], TableGuess),
) -> io::Result<Schema> {
    let (columns, table) = made;
    let mut schemas = Vec::new(rt.alloc());
    schemas.push(guesser.schema_of(0, name, table)?)?;
    let mut guess = guesser.end(schemas, Vec::new(rt.alloc()))?;
    for schema in &mut guess.schemas {
        fit_schema(rt.alloc(), schema, columns)?;
    }
    report_warnings(report, &guess, columns, name);
    match guess.schemas.pop() {
        Some(schema) => Ok(schema),
        None => Err(io::Error::from(ErrorKind::Other)),
    }
}

/// Finds what is made of a file of the folder, and reports what is changed in it. Returns the table, or why it is none that is served.
fn draft_file(
    rt: &HostRuntime,
    report: &mut Report,
    source: &SourceFile<'_>,
    names: (&str, &str),
) -> Result<Result<Table, LeftOutCause>, PassFault> {
    let (file, name) = names;
    let bytes = std::fs::metadata(rt, source.path)?.len() as usize;
    show(rt, file, bytes, "reading")?;
    let found = found_in(rt, source.path, &source.asked)?;
    show(rt, file, bytes, "drafting the metadata")?;
    let limits = Limits::greatest();
    let guesser = Guesser::new(rt.alloc(), Aims { limits, keys: true }).map_err(io::Error::from)?;
    let looked = look_first(rt, source, found, &guesser)?;
    report_changes(report, file, table_of(name), &looked.0);
    let (converted, table) = look_again(rt, source, looked, &guesser)?;
    let made = match table {
        Ok(table) => (converted.columns.as_slice(), table),
        Err(cause) => return Ok(Err(cause)),
    };
    let schema = schema_of(rt, report, name, guesser, made)?;
    Ok(Ok(Table {
        file: String::from_str(rt.alloc(), file).map_err(io::Error::from)?,
        bytes,
        found: Some(found_again(converted)),
        schema,
    }))
}

/// Keeps the table that a file becomes, or reports why it is none.
fn keep_table(
    folder: &mut Folder,
    file: &str,
    made: Result<Result<Table, LeftOutCause>, PassFault>,
) -> io::Result<()> {
    match made {
        Ok(Ok(table)) => return Ok(folder.tables.push(table)?),
        Ok(Err(cause)) => report_left_out(&mut folder.report, file, cause),
        Err(PassFault::Refused(fault)) => report_refusal(&mut folder.report, file, &fault),
        Err(PassFault::Device(error)) => return Err(error),
    }
    folder.refused = folder.refused.saturating_add(1);
    Ok(())
}

/// Adds a file of the folder.
fn add_file<'x>(
    rt: &HostRuntime,
    asks: &Conversion<'x>,
    rules: &[ColumnRule<'x>],
    folder: &mut Folder,
    names: (&str, &str),
) -> io::Result<()> {
    let rules = rules_of(rt.alloc(), rules, table_of(names.1))?;
    let path = path_in(rt, asks.folder, names.0)?;
    let source = source_of(asks, path.as_str(), rules.as_slice());
    let made = draft_file(rt, &mut folder.report, &source, names);
    keep_table(folder, names.0, made)
}

/// Finds what is made of the files of a folder, and reports what is changed.
fn draft_files<'x>(
    rt: &HostRuntime,
    asks: &Conversion<'x>,
    rules: &[ColumnRule<'x>],
    folder: &mut Folder,
) -> io::Result<()> {
    for (file, name) in &tables_in(rt, asks.folder)? {
        add_file(rt, asks, rules, folder, (file.as_str(), name.as_str()))?;
    }
    folder.report.print(rt)
}

/// Converts the files of a folder, and gives the new one, which is not whole yet, its name.
fn fill_folder<'x>(
    rt: &HostRuntime,
    asks: &'x Conversion<'x>,
    rules: &'x [ColumnRule<'x>],
    folder: &mut Folder,
    half: Half,
) -> io::Result<u8> {
    match draft_files(rt, asks, rules, &mut *folder) {
        Ok(()) if folder.refused == 0 || asks.skip => {
            publish(rt, asks, rules, half, folder.tables.as_mut_slice())
        }
        Ok(()) => {
            half.remove(rt);
            let refused = folder.refused;
            eprintln!(rt; "refused: {refused} files: --skip-refused converts the others").and(Ok(
                REFUSED,
            ))
        }
        Err(error) => {
            half.remove(rt);
            Err(error)
        }
    }
}

/// Converts the files of a folder that are there into a new one.
fn convert_files<'x>(
    rt: &HostRuntime,
    asks: &'x Conversion<'x>,
    rules: &'x [ColumnRule<'x>],
) -> io::Result<u8> {
    let half = Half::new(rt, asks.out, asks.dry_run)?;
    let mut folder = Folder {
        tables: Vec::new(rt.alloc()),
        report: Report::new(rt.alloc(), asks.json),
        refused: 0,
    };
    fill_folder(rt, asks, rules, &mut folder, half)
}

/// Converts the files of a folder into a new one, and returns the exit status.
pub fn convert_folder<'x>(rt: &HostRuntime, asks: &'x Conversion<'x>) -> io::Result<u8> {
    if !asks.dry_run && rt.symlink_metadata(asks.out).is_ok() {
        let out = asks.out;
        return eprintln!(rt; "refused: {out}: it is there already").and(Ok(REFUSED));
    }
    let bytes = match asks.columns {
        Some(path) => std::fs::read(rt, path)?,
        None => Vec::new(rt.alloc()),
    };
    let text = std::str::from_utf8(bytes.as_slice()).unwrap_or("");
    match rules_in(rt.alloc(), text)? {
        Ok(rules) => convert_files(rt, asks, rules.as_slice()),
        Err(line) => {
            eprintln!(rt;
                "refused: line {line} of --columns: accepted: TABLE.COLUMN: text, round, decimal comma, decimal point, day first, month first or null TEXT"
            ).and(Ok(REFUSED))
        }
    }
}
