//! Numbers on the rows of a block.

ghost use Rattle.std.specs.Prelude.{◌≡◌, IfOk, IsOk};
ghost use Rattle.number_kernels.specs.Lanes.{AreLong};
ghost use Rattle.number_kernels.specs.Operands.{IsOperandOf};

use crate::fallback::Fallback;
use crate::operand::Operand;

/// A number or null for each row of a block.
#[derive(Drop)]
pub enum Numbers<'a> {
    /// Null on each row.
    Null,
    /// The same number on each row.
    Same(i64),
    /// The numbers of a column, and which of them are null.
    Cells(&'a [i64], &'a [bool]),
    /// Computed numbers, and which of them are null.
    Computed(Vec<i64>, Vec<bool>),
}

impl<'a> Numbers<'a> {
    /// Returns the numbers as one side of an operator.
    pub(crate) fn operand(&self) -> Operand<'_>
        ensures { IsOperandOf self.now result }
    {
        match self {
            Numbers::Null => Operand::Null,
            Numbers::Same(number) => Operand::Same(*number),
            Numbers::Cells(values, nulls) => Operand::Each(values, nulls),
            Numbers::Computed(values, nulls) => Operand::Each(values.as_slice(), nulls.as_slice()),
        }
    }
}

/// Returns the numbers of a column of that many rows.
pub fn cells<'a>(values: &'a [i64], nulls: &'a [bool], rows: usize) -> Result<Numbers<'a>, Fallback>
    ensures value { IfOk result (λ v. v ≡ Numbers.Cells values.entry nulls.entry) }
    ensures long { IfOk result (AreLong rows) }
    ensures is_ok { AreLong rows (Numbers.Cells values.entry nulls.entry) → IsOk result }
{
    if values.len() != rows || nulls.len() != rows {
        return Err(Fallback::Rows);
    }
    Ok(Numbers::Cells(values, nulls))
}
