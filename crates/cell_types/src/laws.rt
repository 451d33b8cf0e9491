//! The laws of the definitions of cells: each function is a theorem, and does nothing.
ghost use Rattle.std.specs.Prelude.{◌≡◌};
ghost use Rattle.cell_types.specs.declared.value.Value.{Value};
ghost use Rattle.cell_types.specs.Laws.{DatesReadBack, DecimalsReadBack, IntegersReadBack, MemoryIsNoCause, NormalTexts, NumbersStandForCells, StringsHaveValues, TextsAreInOrder, ValuesAreOrdered, ValuesFitColumns};
ghost use Rattle.cell_types.specs.Value.{value_cmp, value_eq, value_view};
ghost use Rattle.cell_types.specs.Worked.{WorkedCells};

use crate::value::Value as CellValue;
use std::hash::Hash;

/// A text in a column has a value, or one of seven causes why it has none.
pub fn memory_is_no_cause()
    ensures { MemoryIsNoCause }
{}

/// In a column of strings that may be null each text has a value.
pub fn strings_have_values()
    ensures { StringsHaveValues }
{}

/// The value of a text in a column is of the column's datatype, or null if the column does not require one.
pub fn values_fit_columns()
    ensures { ValuesFitColumns }
{}

/// A normalized text has the words of the text, and no white space but single spaces between them.
pub fn normal_texts()
    ensures { NormalTexts }
{}

/// The text of an integer reads as that integer.
pub fn integers_read_back()
    ensures { IntegersReadBack }
{}

/// The text of a date reads as that date.
pub fn dates_read_back()
    ensures { DatesReadBack }
{}

/// The text of a decimal reads as that decimal.
pub fn decimals_read_back()
    ensures { DecimalsReadBack }
{}

/// A number stands for a value of its kind, and is the number of that value. Of two numbers of one kind the lesser stands for the lesser value. A value for which
/// a number stands is the value of that number.
pub fn numbers_stand_for_cells()
    ensures { NumbersStandForCells }
{}

/// States texts of cells with their values and faults, worked out by hand.
pub fn worked_cells()
    ensures { WorkedCells }
{}

/// Values are in one order, with null first. Between two values of a kind are values of that kind alone.
pub fn values_are_ordered()
    ensures { ValuesAreOrdered }
{}

/// Texts are in the order of their code points, which is that of their bytes in UTF-8.
pub fn texts_are_in_order()
    ensures { TextsAreInOrder }
{}

/// `==`, the order and the hash of values go by what they stand for, whichever memory keeps their texts.
pub fn values_compare_as_their_views()
    ensures equal { (v w : Value)
        → ⟦<CellValue<'static> as PartialEq>⟧.eq v w ≡ value_eq (value_view v) (value_view w) }
    ensures order { (v w : Value)
        → ⟦<CellValue<'static> as Ord>⟧.cmp v w ≡ value_cmp (value_view v) (value_view w) }
    ensures hash { (v w : Value) → value_view v ≡ value_view w
        → ⟦<CellValue<'static> as Hash>⟧.hash_input v
        ≡ ⟦<CellValue<'static> as Hash>⟧.hash_input w }
{}
