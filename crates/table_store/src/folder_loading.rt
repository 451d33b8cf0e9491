//! The loading of a folder in steps: each begins a table, has more of its file, or reads a window of it or the keys of some rows.
ghost use Rattle.std.specs.Prelude.{◌≡◌, ◌<◌, List, None, Some, IfOk, IfErr, IfSome, IsSome, is_some};
ghost use Rattle.std.specs.Option.{option_copied};
ghost use Rattle.table_store.specs.declared.file.NamedFile.{NamedFile};
ghost use Rattle.table_store.specs.Catalog.{folder_view, FolderOf, IsRefused};
ghost use Rattle.table_store.specs.Fault.{load_cause};
ghost use Rattle.table_store.specs.FolderSteps.{coming_schemas, next_url, steps_left, waiting_of, waiting_url, BeginsFirst, BeginsTable, FeedsTable, IsLoading, KeepsComing, Loads, LoadsOn};

use crate::catalog::Catalog;
use crate::fault::LoadFault;
use crate::file::FileStart;
use crate::table::Table;
use crate::table_loading::{TableLoading, TableStep};
use csvw_meta::{Limits, MetaFault, Schema, Schemas};
use std::alloc::Global;
use std::collections::VecDeque;

/// A folder that is loaded: the tables that are read, the one that is under way, and the schemas of the others.
#[derive(Drop)]
pub struct Loading {
    limits: Limits,
    schemas: VecDeque<Schema>,
    tables: Vec<Table>,
    table: Option<TableLoading>,
}

/// What a step of the loading of a folder leaves.
#[derive(Drop)]
pub enum Loaded {
    /// There is more to read.
    On(Loading),
    /// All tables are read.
    Over(Catalog),
}

impl Loading {
    /// Begins to load a folder: reads its metadata. Returns why that is refused.
    pub fn start(alloc: Global, limits: Limits, meta: Vec<u8>) -> Result<Loading, LoadFault>
        ensures loads { IfOk result (λ loading. (files : List NamedFile)
            → Loads (folder_view limits meta.items files) loading) }
        ensures fault { IfErr result (λ e. (files : List NamedFile)
            → IfSome (load_cause e) (IsRefused (folder_view limits meta.items files))) }
        ensures memory { IfErr result (λ e. load_cause e ≡ None → e ≡ LoadFault.NoMemory) }
    {
        let schemas = match Schemas::read(alloc, meta.as_slice(), &limits) {
            Ok(schemas) => schemas,
            Err(MetaFault::NoMemory) => return Err(LoadFault::NoMemory),
            Err(fault) => return Err(LoadFault::Meta(fault)),
        };
        csvw_meta::accepted_schemas();
        csvw_meta::defaults_are_short();
        csvw_meta::sizes();
        Ok(Loading {
            limits,
            schemas: VecDeque::from(schemas.tables),
            tables: Vec::new(alloc),
            table: None,
        })
    }

    /// Returns the url of the table that is to begin, if none is under way and there is another.
    pub fn next_url(&self) -> Option<&str>
        ensures { option_copied result ≡ next_url self.now }
    {
        match &self.table {
            Some(_) => None,
            None => match self.schemas.front() {
                Some(schema) => Some(schema.url.as_str()),
                None => None,
            },
        }
    }

    /// Returns true if the next step is to have more of the file of the table that is under way, or its end.
    pub fn wants(&self) -> bool
        ensures { result ≡ is_some (waiting_url self.now) }
    {
        match &self.table {
            Some(table) => table.stage.wants(),
            None => false,
        }
    }

    /// Begins the next table, of whose file that is known. Returns why it is refused before its file is read.
    pub fn begin(mut self, file: FileStart) -> Result<Loading, LoadFault>
        requires next { IsSome (next_url self) }
        requires loads { IsLoading self }
        ensures goes_on { IfOk result (λ loading. (folder : FolderOf) (new : FolderOf)
            → BeginsTable folder new file self
            → Loads new loading × (steps_left loading < steps_left self)) }
        ensures coming { IfOk result (BeginsFirst self) }
        ensures fault { IfErr result (λ e. (folder : FolderOf) (new : FolderOf)
            → BeginsTable folder new file self → IfSome (load_cause e) (IsRefused new)) }
        ensures memory { IfErr result (λ e. load_cause e ≡ None → e ≡ LoadFault.NoMemory) }
    {
        let Some(schema) = self.schemas.pop_front() else {
            unreachable!()
        };
        match TableLoading::start(self.limits.file, schema, file) {
            Ok(table) => {
                self.table = Some(table);
                Ok(self)
            }
            Err(fault) => Err(fault),
        }
    }

    /// Gives the next bytes of the file of the table that is under way. If there are none, it is at its end.
    pub fn feed(mut self, bytes: &[u8]) -> Result<Loading, LoadFault>
        requires wants { IsSome (waiting_url self) }
        requires loads { IsLoading self }
        ensures goes_on { IfOk result (λ loading. (folder : FolderOf) (new : FolderOf)
            → FeedsTable folder new bytes.now self
            → Loads new loading × (steps_left loading < steps_left self)) }
        ensures coming { IfOk result (λ loading. coming_schemas loading ≡ coming_schemas self) }
        ensures fault { IfErr result (λ e. (folder : FolderOf) (new : FolderOf)
            → FeedsTable folder new bytes.now self → IfSome (load_cause e) (IsRefused new)) }
        ensures memory { IfErr result (λ e. load_cause e ≡ None → e ≡ LoadFault.NoMemory) }
    {
        let Some(table) = self.table.take() else {
            unreachable!()
        };
        match table.feed(self.limits.file, bytes) {
            Ok(table) => {
                self.table = Some(table);
                Ok(self)
            }
            Err(fault) => Err(fault),
        }
    }

    /// Reads on in `table`, or ends it.
    fn go_on(mut self, alloc: Global, table: TableLoading) -> Result<Loaded, LoadFault>
        requires none { self.table ≡ None }
        requires ready { waiting_of (Some table) ≡ None }
        requires loads { IsLoading (record self { table = Some table }) }
        ensures goes_on { IfOk result (λ loaded. (folder : FolderOf)
            → Loads folder (record self { table = Some table })
            → LoadsOn folder (steps_left (record self { table = Some table })) loaded) }
        ensures coming { IfOk result (KeepsComing (coming_schemas self)) }
        ensures fault { IfErr result (λ e. (folder : FolderOf)
            → Loads folder (record self { table = Some table })
            → IfSome (load_cause e) (IsRefused folder)) }
        ensures memory { IfErr result (λ e. load_cause e ≡ None → e ≡ LoadFault.NoMemory) }
    {
        match table.step(alloc) {
            Ok(TableStep::On(table)) => {
                self.table = Some(table);
                Ok(Loaded::On(self))
            }
            Ok(TableStep::Over(table)) => match self.tables.push(table) {
                Ok(()) => Ok(Loaded::On(self)),
                Err(_) => Err(LoadFault::NoMemory),
            },
            Err(fault) => Err(fault),
        }
    }

    /// Reads on in the table that is under way, or ends it. Returns the tables once all are read, or the cause of the first that is refused.
    pub fn step(mut self, alloc: Global) -> Result<Loaded, LoadFault>
        requires begun { next_url self ≡ None }
        requires ready { waiting_url self ≡ None }
        requires loads { IsLoading self }
        ensures goes_on { IfOk result (λ loaded. (folder : FolderOf) → Loads folder self
            → LoadsOn folder (steps_left self) loaded) }
        ensures coming { IfOk result (KeepsComing (coming_schemas self)) }
        ensures fault { IfErr result (λ e. (folder : FolderOf) → Loads folder self
            → IfSome (load_cause e) (IsRefused folder)) }
        ensures memory { IfErr result (λ e. load_cause e ≡ None → e ≡ LoadFault.NoMemory) }
    {
        match self.table.take() {
            Some(table) => self.go_on(alloc, table),
            None => {
                let Loading { limits, tables, .. } = self;
                Ok(Loaded::Over(Catalog { limits, tables }))
            }
        }
    }
}
