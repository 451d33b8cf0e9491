//! A table is read from its file: first its columns, window by window, then the keys of its rows, and then the summaries of its blocks.
ghost use Rattle.std.specs.Prelude.{◌≡◌, ◌≤◌, ◌^◌, ℕ, List, Option, None, IfOk, IfErr, IfSome, false};
ghost use Rattle.csv_grammar.specs.Raw.{RawField};
ghost use Rattle.csvw_meta.specs.Schema.{schema_view, SchemaOf};
ghost use Rattle.file_cells.specs.Reading.{wants_more, IsReading};
ghost use Rattle.table_store.specs.Loading.{file_cause, table_cause, HasFileCause, HasKeyColumns, HasRowsCause};
ghost use Rattle.table_store.specs.Steps.{stage_left, stage_wants, FileReadsOn, IsAtStage, ReadsKeys, RefusesStage, RowsReadOn, StageStepsOn, Summarizes};

use crate::summaries::SummarizedRows;
use crate::table_fault::TableFault;
use block_summary::BLOCK_ROWS;
use csvw_meta::Schema;
use file_cells::{FileFault, FileReading, FileStep};
use key_index::{KeyStep, KeysReading};
use std::alloc::Global;

/// How far the file of a table is read.
#[derive(Drop)]
pub enum Stage {
    /// Its columns are read.
    File(FileReading),
    /// The keys of its rows are read.
    Keys(KeysReading),
    /// The summaries of its blocks are made.
    Summaries(SummarizedRows),
}

/// What a step leaves.
#[derive(Drop)]
pub enum StageStep {
    /// There is more to read.
    On(Stage),
    /// All is read.
    Over(SummarizedRows),
}

/// Returns the fault of a table whose file has that fault.
fn fault_of_file(fault: FileFault) -> TableFault
    ensures cause { table_cause result ≡ file_cause fault }
    ensures memory { fault ≡ FileFault.NoMemory → result ≡ TableFault.NoMemory }
{
    match fault {
        FileFault::NoMemory => TableFault::NoMemory,
        _ => TableFault::File(fault),
    }
}

/// Reads one more window of a file. Returns its columns, of whose rows no key is read, once it is read, or what is first wrong with it before its keys.
fn file_step(alloc: Global, schema: &Schema, reading: FileReading) -> Result<StageStep, TableFault>
    requires ready { wants_more reading ≡ false }
    requires reads { (given : List ℕ) × IsReading (schema_view schema.now).columns given reading }
    ensures goes_on { IfOk result (λ step. (given : List ℕ)
        → IsReading (schema_view schema.now).columns given reading
        → FileReadsOn (schema_view schema.now) given reading step) }
    ensures fault { IfErr result (λ e. (given : List ℕ)
        → IsReading (schema_view schema.now).columns given reading
        → IfSome (table_cause e) (HasFileCause (schema_view schema.now) given)) }
    ensures memory { IfErr result (λ e. table_cause e ≡ None → e ≡ TableFault.NoMemory) }
{
    match reading.step(alloc, schema.columns.as_slice()) {
        Ok(FileStep::On(reading)) => Ok(StageStep::On(Stage::File(reading))),
        Ok(FileStep::Over(read)) => {
            let keys = KeysReading::start(read.columns, read.rows);
            Ok(StageStep::On(Stage::Keys(keys)))
        }
        Err(fault) => Err(fault_of_file(fault)),
    }
}

/// Reads the keys of more rows. Returns the rows, of which no block has its summary, once the keys of all are read, or why they have none.
fn keys_step(alloc: Global, schema: &Schema, keys: KeysReading) -> Result<StageStep, TableFault>
    requires key { HasKeyColumns (schema_view schema.now) }
    requires few { keys.rows ≤ 2 ^ 30 }
    requires reads { (raws : List (List RawField)) × ReadsKeys (schema_view schema.now) raws keys }
    ensures goes_on { IfOk result (λ step. (raws : List (List RawField))
        → ReadsKeys (schema_view schema.now) raws keys
        → RowsReadOn (schema_view schema.now) raws (stage_left (Stage.Keys keys)) step) }
    ensures fault { IfErr result (λ e. (raws : List (List RawField))
        → ReadsKeys (schema_view schema.now) raws keys
        → IfSome (table_cause e) (HasRowsCause (schema_view schema.now) raws)) }
    ensures memory { IfErr result (λ e. table_cause e ≡ None → e ≡ TableFault.NoMemory) }
{
    match keys.step(alloc, schema.key.as_slice())? {
        KeyStep::On(keys) => Ok(StageStep::On(Stage::Keys(keys))),
        KeyStep::Over(keyed) => {
            let rows = SummarizedRows::start(alloc, keyed)?;
            Ok(StageStep::On(Stage::Summaries(rows)))
        }
        KeyStep::Refused(fault) => Err(TableFault::Key(fault)),
    }
}

/// Makes the summaries of more blocks. Returns the rows with them once each block has its own.
fn summaries_step(alloc: Global, rows: SummarizedRows) -> Result<StageStep, TableFault>
    requires reads { (schema : SchemaOf) × (raws : List (List RawField))
        × Summarizes schema raws rows }
    ensures goes_on { IfOk result (λ step. (schema : SchemaOf) (raws : List (List RawField))
        → Summarizes schema raws rows
        → RowsReadOn schema raws (stage_left (Stage.Summaries rows)) step) }
    ensures memory { IfErr result (λ e. e ≡ TableFault.NoMemory) }
{
    let rows = rows.step(alloc)?;
    if rows.summaries.len() < rows.rows.rows.div_ceil(BLOCK_ROWS) {
        Ok(StageStep::On(Stage::Summaries(rows)))
    } else {
        Ok(StageStep::Over(rows))
    }
}

impl Stage {
    /// Returns true if the next step is to have more of the file, or its end.
    pub fn wants(&self) -> bool
        ensures { result ≡ stage_wants self.now }
    {
        match self {
            Stage::File(reading) => reading.wants(),
            Stage::Keys(_) | Stage::Summaries(_) => false,
        }
    }

    /// Reads one more window of the file of a schema's table, or the keys of more of its rows, or makes the summaries of more of its blocks.
    /// Returns the rows with their keys and the summaries once all is read, or why the table is refused.
    pub fn step(self, alloc: Global, schema: &Schema) -> Result<StageStep, TableFault>
        requires key { HasKeyColumns (schema_view schema.now) }
        requires ready { stage_wants self ≡ false }
        requires at { (limit : ℕ) × (file : Option (List ℕ))
            × IsAtStage limit file (schema_view schema.now) self }
        ensures goes_on { IfOk result (StageStepsOn (schema_view schema.now) self) }
        ensures fault { IfErr result (λ e.
            RefusesStage (schema_view schema.now) self (table_cause e)) }
        ensures memory { IfErr result (λ e. table_cause e ≡ None → e ≡ TableFault.NoMemory) }
    {
        match self {
            Stage::File(reading) => file_step(alloc, schema, reading),
            Stage::Keys(keys) => keys_step(alloc, schema, keys),
            Stage::Summaries(rows) => summaries_step(alloc, rows),
        }
    }
}
