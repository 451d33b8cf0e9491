//! What a folder has: a line for each table.
ghost use Rattle.std.specs.Prelude.{◌≡◌, ◌<◌, ◌^◌, IfOk, string_bytes};
ghost use Rattle.odata_serve.specs.Check.{AreListed, IsCheck, table_line};
ghost use Rattle.served_folders.specs.Loads.{loading};

use exit_statuses::ProgramFault;
use odata_http::{Sink, send};
use served_folders::Folders;
use std::alloc::{AllocError, Global};
use table_store::Table;

/// Returns the line of a table.
fn line_of(alloc: Global, table: &Table) -> Result<String, AllocError>
    ensures { IfOk result (λ line. string_bytes line ≡ table_line table.now) }
{
    let name = table.name();
    let rows = table.rows();
    let width = table.width();
    let line = format!(in alloc; "{name} {rows} {width}\n")?;
    Ok(line)
}

/// Writes the lines of tables in order, each as it goes.
fn write_lines<W: Sink>(alloc: Global, tables: &[Table], out: &mut W) -> Result<(), ProgramFault>
    ensures { AreListed tables.now (W.sink out.old) (W.sink out.new) result }
{
    for table in tables {
        let line = line_of(alloc, table)?;
        match send(out, line.as_bytes()) {
            Ok(()) => {}
            Err(_) => return Err(ProgramFault::Device),
        }
    }
    Ok(())
}

/// Loads the folder of that name, and writes a line for each table: its name, its number of rows and its number of columns.
pub fn check_folder<F: Folders, W: Sink>(
    alloc: Global,
    folders: &mut F,
    name: &str,
    out: &mut W,
) -> Result<(), ProgramFault>
    requires failed_writes { (W.sink out.old).failed_writes < 2 ^ 63 }
    ensures { IsCheck (loading name.now (F.folders folders.old) (F.folders folders.new))
        (W.sink out.old) (W.sink out.new) result }
{
    match folders.load(alloc, name) {
        Ok(catalog) => write_lines(alloc, catalog.tables(), out),
        Err(fault) => Err(ProgramFault::Folder(fault)),
    }
}
