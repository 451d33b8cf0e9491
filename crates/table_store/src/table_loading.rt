//! The loading of one table in steps, each of which reads a window of its file or the keys of some rows, or makes the summaries of some blocks.
ghost use Rattle.std.specs.Prelude.{◌≡◌, ◌^◌, ◌≤◌, ℕ, List, Option, None, IfOk, IfErr, IfSome, true, false};
ghost use Rattle.csvw_meta.specs.Laws.{HasShortDefaults};
ghost use Rattle.csvw_meta.specs.Schema.{schema_view, SchemaOf};
ghost use Rattle.table_store.specs.Fault.{load_cause};
ghost use Rattle.table_store.specs.File.{with_more, IsSuchFile};
ghost use Rattle.table_store.specs.Loading.{HasKeyColumns, IsRefusedTable};
ghost use Rattle.table_store.specs.Steps.{stage_wants, FeedsOn, IsLoadingTable, LoadsTable, TableStepsOn};

use crate::fault::LoadFault;
use crate::file::FileStart;
use crate::reading::{Stage, StageStep};
use crate::table::{Table, fault_of};
use csvw_meta::Schema;
use file_cells::FileReading;
use std::alloc::Global;

/// A table that is loaded: its schema, and how far its file is read.
#[derive(Drop)]
pub struct TableLoading {
    pub schema: Schema,
    pub stage: Stage,
}

/// What a step of the loading of a table leaves.
#[derive(Drop)]
pub enum TableStep {
    /// There is more to read.
    On(TableLoading),
    /// The table is read.
    Over(Table),
}

impl TableLoading {
    /// Begins to load the table of a schema. Returns why it is refused before its file is read, which may have as many bytes as the limit.
    pub fn start(limit: u32, schema: Schema, file: FileStart) -> Result<TableLoading, LoadFault>
        requires limit { limit ≤ 2 ^ 30 }
        requires key { HasKeyColumns (schema_view schema) }
        requires defaults { HasShortDefaults (schema_view schema) }
        ensures loads { IfOk result (λ loading. (bytes : Option (List ℕ))
            → IsSuchFile limit file bytes → LoadsTable limit bytes (schema_view schema) loading) }
        ensures fault { IfErr result (λ e. (bytes : Option (List ℕ))
            → IsSuchFile limit file bytes
            → IfSome (load_cause e) (IsRefusedTable limit bytes (schema_view schema))) }
        ensures memory { IfErr result (λ e. load_cause e ≡ None → e ≡ LoadFault.NoMemory) }
    {
        let bytes = match file {
            FileStart::Missing => return Err(LoadFault::FileMissing { table: schema.url }),
            FileStart::TooLarge => return Err(LoadFault::FileTooLarge { table: schema.url }),
            FileStart::Begins(bytes) => bytes,
        };
        if bytes.len() > limit as usize {
            return Err(LoadFault::FileTooLarge { table: schema.url });
        }
        Ok(TableLoading {
            schema,
            stage: Stage::File(FileReading::start(bytes)),
        })
    }

    /// Gives the next bytes of the file. If there are none, it is at its end.
    pub fn feed(self, limit: u32, bytes: &[u8]) -> Result<TableLoading, LoadFault>
        requires limit { limit ≤ 2 ^ 30 }
        requires wants { stage_wants self.stage ≡ true }
        requires loads { (file : Option (List ℕ)) × (schema : SchemaOf)
            × LoadsTable limit file schema self }
        ensures loads { IfOk result (FeedsOn limit bytes.now self) }
        ensures fault { IfErr result (λ e. (file : Option (List ℕ)) (schema : SchemaOf)
            → LoadsTable limit file schema self
            → IfSome (load_cause e) (IsRefusedTable limit (with_more bytes.now file) schema)) }
        ensures memory { IfErr result (λ e. load_cause e ≡ None → e ≡ LoadFault.NoMemory) }
    {
        let TableLoading { schema, stage } = self;
        match stage {
            Stage::File(reading) => {
                if reading.given() + bytes.len() > limit as usize {
                    return Err(LoadFault::FileTooLarge { table: schema.url });
                }
                let stage = Stage::File(reading.feed(bytes)?);
                Ok(TableLoading { schema, stage })
            }
            _ => unreachable!(),
        }
    }

    /// Reads on; once all is read, returns the table, or why it is refused.
    pub fn step(self, alloc: Global) -> Result<TableStep, LoadFault>
        requires ready { stage_wants self.stage ≡ false }
        requires loads { IsLoadingTable self }
        ensures goes_on { IfOk result (TableStepsOn self) }
        ensures fault { IfErr result (λ e. (limit : ℕ) (file : Option (List ℕ)) (schema : SchemaOf)
            → LoadsTable limit file schema self
            → IfSome (load_cause e) (IsRefusedTable limit file schema)) }
        ensures memory { IfErr result (λ e. load_cause e ≡ None → e ≡ LoadFault.NoMemory) }
    {
        let TableLoading { schema, stage } = self;
        match stage.step(alloc, &schema) {
            Ok(StageStep::On(stage)) => Ok(TableStep::On(TableLoading { schema, stage })),
            Ok(StageStep::Over(rows)) => Ok(TableStep::Over(Table::of_rows(schema, rows))),
            Err(fault) => Err(fault_of(schema.url, fault)),
        }
    }
}
