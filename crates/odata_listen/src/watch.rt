//! When a folder is loaded anew, and what is done with what was loaded.
ghost use Rattle.std.specs.Prelude.{◌≡◌};
ghost use Rattle.odata_listen.specs.Laws.{WorkedPauses};
ghost use Rattle.odata_listen.specs.Watch.{HandsOver, IsSize, Looks, is_final, next_pause};

use crate::older_tables::OlderTables;
use exit_statuses::ProgramFault;
use odata_hub::Hub;
use served_folders::FolderFault;
use service_log::LoadSummary;
use std::alloc::Global;
use std::rc::Rc;
use table_store::{Catalog, Table};

/// The most seconds between two tries of a load that fails.
pub const MOST_PAUSE: u32 = 60;

/// The pauses after one failure after the other.
pub fn worked_pauses()
    ensures { WorkedPauses }
{}

/// Returns the seconds until a load that failed is tried again, after a pause of `pause` seconds or after none.
pub fn pause_after(pause: u32) -> u32
    ensures { result ≡ next_pause pause }
{
    if pause == 0 {
        1
    } else {
        pause.saturating_mul(2).min(MOST_PAUSE)
    }
}

/// Returns how many rows tables have.
fn rows_of(tables: &[Table]) -> u64 {
    let mut rows: u64 = 0;
    for table in tables {
        rows = rows.saturating_add(table.rows() as u64);
    }
    rows
}

/// Returns how much was loaded in `millis` milliseconds: nothing if the load was refused.
pub fn size_of(loaded: &Result<Catalog, FolderFault>, millis: u64) -> LoadSummary
    ensures { IsSize loaded.now millis result }
{
    match loaded {
        Ok(catalog) => LoadSummary {
            tables: catalog.tables().len() as u64,
            rows: rows_of(catalog.tables()),
            millis,
        },
        Err(_) => LoadSummary {
            tables: 0,
            rows: 0,
            millis,
        },
    }
}

/// What a look at a folder says.
#[derive(Clone, Copy, PartialEq, Eq)]
pub enum FolderLook {
    /// It is as it was taken.
    Same,
    /// It changed since it was looked at last.
    Moves,
    /// It changed, and stands still since it was looked at last.
    Changed,
}

/// Returns what a look says that found a folder in one state, if it was taken in another, and seen in a third at the look before.
pub fn look_of(taken: &str, seen: &str, found: &str) -> FolderLook
    ensures { Looks taken.now seen.now found.now result }
{
    if found == taken {
        FolderLook::Same
    } else if found == seen {
        FolderLook::Changed
    } else {
        FolderLook::Moves
    }
}

/// Hands the tables of a folder to the hub, and a handle of them to `older`; if the folder was refused, the hub keeps those that it has.
#[tactic(auto, using(crate::proofs::ReloadLemmas::reload_step))]
pub fn hand_over(
    alloc: Global,
    hub: &mut Hub,
    older: &mut OlderTables,
    loaded: Result<Catalog, FolderFault>,
) -> Result<(), ProgramFault>
    ensures { HandsOver loaded hub.old hub.new result }
{
    match loaded {
        Ok(catalog) => {
            let Ok(tables) = Rc::new(alloc, catalog) else {
                return Err(ProgramFault::NoMemory);
            };
            let Ok(handle) = tables.clone() else {
                return Err(ProgramFault::NoMemory);
            };
            hub.reload(tables);
            older.replace(handle);
            Ok(())
        }
        Err(fault) => Err(ProgramFault::Folder(fault)),
    }
}

/// Returns true if a reload comes to the same end as long as the folder stays: not if a device failed, or memory ran out.
pub fn is_final(end: &Result<(), ProgramFault>) -> bool
    ensures { result ≡ is_final end.now }
{
    match end {
        Ok(()) => true,
        Err(ProgramFault::Folder(FolderFault::NoMetadata)) => true,
        Err(ProgramFault::Folder(FolderFault::Load(fault))) => !fault.is_memory(),
        Err(_) => false,
    }
}
