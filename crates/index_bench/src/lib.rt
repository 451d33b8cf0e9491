//! The index of a file (RFC 4180, section 2), for a program in C that measures how fast it is made (bench/index). It answers the
//! number of rows, and says of each negative answer what it means, exactly as [`csv_index::Index::build`] does.
#![tactic(auto)]

ghost use Rattle.std.specs.Prelude.{ℕ, ◌^◌, ◌<◌, List, IfOk, IfErr, IsUtf8};
ghost use Rattle.csv_index.specs.Index.{IsIndexOf};
ghost use Rattle.csv_index.specs.Fault.{IsTextFault};
ghost use Rattle.index_bench.specs.Rows.{AnswersStatus};

use csv_index::{Index, TextFault};
use std::alloc::Global;

/// The bytes are no table.
const REFUSED: i64 = -1;

/// Memory ran out.
const NO_MEMORY: i64 = -2;

/// Returns how many rows follow the header of a file, -1 if it is no table, or -2 if memory runs out. Drops the index.
#[unsafe(no_mangle)]
pub extern "C" fn index_rows(alloc: Global, bytes: &[u8]) -> i64
    ensures { AnswersStatus bytes.now result }
{
    rows_of(Index::build(alloc, bytes))
}

/// The same for bytes that are known to be UTF-8: the index alone, with no check of them.
#[unsafe(no_mangle)]
pub extern "C" fn utf8_rows(alloc: Global, bytes: &[u8]) -> i64
    requires { IsUtf8 bytes.now }
    ensures { AnswersStatus bytes.now result }
{
    rows_of(Index::of_utf8(alloc, bytes))
}

/// Returns what an index, or a fault, says of the file.
fn rows_of(index: Result<Index, TextFault>) -> i64
    requires { IfOk index (λ index. index.rows < 2 ^ 63) }
    ensures { (bytes : List ℕ) → IfOk index (λ index. IsIndexOf index bytes)
        → IfErr index (IsTextFault bytes) → AnswersStatus bytes result }
{
    match index {
        Ok(index) => index.rows() as i64,
        Err(fault) if fault == TextFault::NoMemory => NO_MEMORY,
        Err(_) => REFUSED,
    }
}
