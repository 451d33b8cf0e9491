//! A folder that is checked table by table, by what its caller gives of their files.
ghost use Rattle.std.specs.Prelude.{◌≡◌, ◌<◌, ℕ, List, [], Option, None, Some, IfErr, IfOk, IfSome, IsSome, option_map};
ghost use Rattle.std.specs.Option.{option_copied};
ghost use Rattle.csvw_meta.specs.Schema.{schema_view};
ghost use Rattle.table_store.specs.Fault.{load_cause};
ghost use Rattle.table_store.specs.Catalog.{IsRefused};
ghost use Rattle.table_store.specs.File.{FileOf};
ghost use Rattle.folder_checks.specs.Checks.{folder_of};
ghost use Rattle.folder_checks.specs.FolderChecks.{next_schema, tables_left, with_last, EndsTable, IsCheckingFolder, IsServedBy, RefusesEnd, RefusesTable};

use crate::fault::{CheckFault, fault_of};
use crate::file_check::FileCheck;
use csvw_meta::{Limits, MetaFault, Schema, Schemas};
use std::alloc::Global;
use table_store::LoadFault;

/// A folder that is checked: the schemas of its metadata, of which the tables of the first `next` are checked.
#[derive(Drop)]
pub struct FolderCheck {
    schemas: Vec<Schema>,
    next: usize,
}

impl FolderCheck {
    /// Begins to check a folder: reads its metadata. Returns why that is refused, whatever its files are.
    pub fn start(alloc: Global, meta: &[u8]) -> Result<FolderCheck, LoadFault>
        ensures checks { IfOk result (IsCheckingFolder meta.now []) }
        ensures fault { IfErr result (λ e. (files : List FileOf)
            → IfSome (load_cause e) (IsRefused (folder_of meta.now files))) }
    {
        match Schemas::read(alloc, meta, &Limits::greatest()) {
            Ok(schemas) => Ok(FolderCheck {
                schemas: schemas.tables,
                next: 0,
            }),
            Err(MetaFault::NoMemory) => Err(LoadFault::NoMemory),
            Err(fault) => Err(LoadFault::Meta(fault)),
        }
    }

    /// Returns the schema of the table that is to be checked, if there is another.
    pub fn schema(&self) -> Option<&Schema>
        ensures { option_map schema_view (option_copied result) ≡ next_schema self.now }
    {
        self.schemas.get(self.next)
    }

    /// Returns why the folder is refused if its next table is.
    pub fn refuse(mut self, fault: CheckFault) -> LoadFault
        requires next { IsSome (next_schema self) }
        ensures { RefusesTable self fault (load_cause result) }
    {
        csvw_meta::accepted_schemas();
        let schema = self.schemas.swap_remove(self.next);
        fault_of(schema.url, fault)
    }

    /// Ends the check of the next table, whose file was given whole. Returns why the folder is refused if the table is.
    pub fn end_table(mut self, alloc: Global, file: FileCheck) -> Result<FolderCheck, LoadFault>
        requires next { IsSome (next_schema self) }
        requires checks { (meta : List ℕ) × (files : List FileOf) × (given : List ℕ)
            × EndsTable self file meta files given }
        ensures checks { IfOk result (λ new. (meta : List ℕ) (files : List FileOf) (given : List ℕ)
            → EndsTable self file meta files given
            → IsCheckingFolder meta (with_last self files (Some given)) new) }
        ensures fewer { IfOk result (λ new. tables_left new < tables_left self) }
        ensures fault { IfErr result (λ e. RefusesEnd self file (load_cause e)) }
    {
        csvw_meta::accepted_schemas();
        match file.end(alloc, &self.schemas[self.next]) {
            Ok(()) => {
                self.next += 1;
                Ok(self)
            }
            Err(fault) => Err(self.refuse(fault)),
        }
    }

    /// Ends the check once all tables are checked: a folder of the files that were given is served.
    pub fn end(self)
        requires { next_schema self ≡ None }
        ensures { (meta : List ℕ) (files : List FileOf) → IsCheckingFolder meta files self
            → IsServedBy meta files }
    {
        csvw_meta::accepted_schemas();
    }
}
