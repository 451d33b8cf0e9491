//! The cells of one column of a block, kept as numbers.

ghost use Rattle.std.specs.Prelude.{◌≡◌, None, IfOk, length, map, option_map, slice_index_or};
ghost use Rattle.std.specs.List.{count_by};
ghost use Rattle.cell_types.specs.Value.{null, value_view};
ghost use Rattle.block_summary.specs.Cells.{AreUnpacked, HaveBounds};
ghost use Rattle.block_summary.specs.Ranges.{is_null, HasGreatest, HasLeast};
ghost use Rattle.block_summary.specs.Passing.{number_passes};
ghost use Rattle.block_summary.specs.Sums.{number_sum};
ghost use Rattle.block_summary.specs.TypedNumbers.{typed_number_or_null};
ghost use Rattle.block_summary.specs.Types.{cells_of_kind, number_cells, numbers_of, AreNumbersOf};

use crate::bounds::Bounds;
use crate::integers::Integers;
use crate::typed_number::TypedNumber;
use cell_types::{ComparisonOperator, NumberKind, Value, numbers_stand_for_cells, typed_value};
use std::alloc::{AllocError, Global};
use std::marker::Model;

/// The cells of one column of a block, none of which is a text. Each is kept as a number: how far it is above the least one, in as few
/// bytes as the column needs in this block, and which of them are null. A column is read as a whole, into buffers of the caller's.
#[derive(Drop)]
pub struct PackedColumn {
    kind: NumberKind,
    numbers: Integers,
}

impl Model for PackedColumn {
    ghost use Rattle.std.specs.Prelude.{List};
    ghost use Rattle.cell_types.specs.Value.{CellValue};

    ghost Value = { List CellValue };

    ghost use Rattle.block_summary.specs.TypedNumbers.{typed_number_or_null};
    ghost use Rattle.block_summary.specs.Types.{cells_of_kind, AllNumbersOf};

    ghost view = { λ c. cells_of_kind c.kind c.numbers };

    ghost invariant = { λ c. AllNumbersOf c.kind c.numbers };
}

impl PackedColumn {
    /// Keeps the cells that numbers and marks of nulls stand for. What stands in the place of a null does not matter.
    pub fn pack(
        alloc: Global,
        kind: NumberKind,
        values: &[i64],
        nulls: &[bool],
    ) -> Result<PackedColumn, AllocError>
        requires long { length nulls.now ≡ length values.now }
        requires numbers { AreNumbersOf kind nulls.now values.now }
        ensures { IfOk result (λ column. column ≡ number_cells kind nulls.now values.now) }
    {
        let numbers = Integers::pack(alloc, values, nulls)?;
        Ok(PackedColumn { kind, numbers })
    }

    /// Returns how many cells there are.
    pub fn len(&self) -> usize
        ensures { result ≡ length self.now }
    {
        self.numbers.len()
    }

    /// Returns the number of a row, or `None` if it is null, or past the end.
    pub fn number(&self, row: usize) -> Option<i64>
        ensures { result ≡ slice_index_or (numbers_of self.now) row None }
    {
        numbers_stand_for_cells();
        self.numbers.get(row)
    }

    /// Returns the number of a row with its kind, or `None` if it is null, or past the end.
    #[inline(always)]
    pub fn typed(&self, row: usize) -> Option<TypedNumber>
        ensures { typed_number_or_null result ≡ slice_index_or self.now row null }
    {
        match self.numbers.get(row) {
            Some(number) => Some(TypedNumber::new(self.kind, number)),
            None => None,
        }
    }

    /// Returns the value of a row; null past the end.
    pub fn value(&self, row: usize) -> Value<'static>
        ensures { value_view result ≡ slice_index_or self.now row null }
    {
        match self.typed(row) {
            Some(number) => number.value(),
            None => Value::Null,
        }
    }

    /// Writes the number of each row; at a null, any.
    pub fn unpack(&self, out: &mut [i64])
        requires { length out.old ≡ length self.now }
        ensures { AreUnpacked (numbers_of self.now) out.new }
    {
        numbers_stand_for_cells();
        self.numbers.unpack(out);
    }

    /// Marks the rows that are null.
    pub fn unpack_nulls(&self, out: &mut [bool])
        requires { length out.old ≡ length self.now }
        ensures { out.new ≡ map is_null self.now }
    {
        numbers_stand_for_cells();
        self.numbers.unpack_nulls(out);
    }

    /// Returns the least and the greatest number, or `None` if each row is null.
    pub fn bounds(&self) -> Option<Bounds>
        ensures { HaveBounds result (numbers_of self.now) }
    {
        numbers_stand_for_cells();
        self.numbers.bounds()
    }

    /// Returns the least and the greatest cell that are not null, if there are any.
    pub fn ends(&self) -> (Option<Value<'static>>, Option<Value<'static>>)
        ensures least { HasLeast (option_map value_view result.0) self.now }
        ensures greatest { HasGreatest (option_map value_view result.1) self.now }
    {
        numbers_stand_for_cells();
        match self.numbers.bounds() {
            Some(bounds) => (
                Some(typed_value(self.kind, bounds.least)),
                Some(typed_value(self.kind, bounds.greatest)),
            ),
            None => (None, None),
        }
    }

    /// Returns how many rows are null.
    pub fn null_count(&self) -> usize
        ensures { result ≡ count_by is_null self.now }
    {
        self.numbers.null_count()
    }

    /// Returns what the numbers stand for; of nulls alone, any.
    pub fn kind(&self) -> NumberKind
        ensures { cells_of_kind result (numbers_of self.now) ≡ self.now }
    {
        numbers_stand_for_cells();
        self.kind
    }

    /// Returns the sum of the numbers; nulls are passed over.
    pub fn sum(&self) -> i128
        ensures { result ≡ number_sum (numbers_of self.now) }
    {
        numbers_stand_for_cells();
        self.numbers.sum()
    }

    /// Marks the rows whose numbers pass a comparison with a literal, and no others. No number is unpacked.
    pub fn mark_passing(&self, op: ComparisonOperator, literal: i64, out: &mut [bool])
        requires { length out.old ≡ length self.now }
        ensures { out.new ≡ map (number_passes op literal) (numbers_of self.now) }
    {
        numbers_stand_for_cells();
        self.numbers.mark_passing(op, literal, out);
    }
}
