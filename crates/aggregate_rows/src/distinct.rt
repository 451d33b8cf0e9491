//! The values that rows have in a column, each once (OData Data Aggregation 4.0, section 3.1.3): nulls are passed over.
ghost use Rattle.std.specs.Prelude.{◌≡◌, ◌<◌, ◌≤◌, ◌+ℤ◌, ◌∷◌, [], filter, pos, IfOk, IfSome, List, OnOk, Some, length, map, slice_index_or};
ghost use Rattle.std.specs.List.{All};
ghost use Rattle.cell_types.specs.Value.{CellValue, value_view};
ghost use Rattle.query_meaning.specs.Apply.{is_value, value_at};
ghost use Rattle.row_columns.specs.Picked.{numbered};
ghost use Rattle.row_codes.specs.Kept.{IsKeptAs};
ghost use Rattle.aggregate_rows.specs.Distinct.{HoldsDistinct, JoinsDistinct, JoinsValue, JoinsValues};

use crate::computed::is_null;
use crate::parts::RowAt;
use block_summary::{Bounds, PackedColumn};
use cell_types::{NumberKind, Value, owned};
use insertion_map::KeyPlaces;
use row_columns::Columns;
use row_selection::Selection;
use std::alloc::{AllocError, Global};

/// Numbers have marks only if at least this many rows join at once.
const FEWEST_ROWS: usize = 64;

/// No more numbers have marks than this, and no more than 16 for each row that joins.
const MOST_MARKS: u64 = 1 << 16;

/// Values, each once. A number of a span has its mark set once its value is among them, so that it is not looked up again.
#[derive(Drop)]
pub(crate) struct Distinct {
    pub(crate) values: KeyPlaces<Value<'static>>,
    /// The kind of the numbers that have marks.
    pub(crate) kind: NumberKind,
    pub(crate) span: Bounds,
    pub(crate) marks: Vec<bool>,
}

impl Distinct {
    /// Returns no values.
    pub(crate) fn none(alloc: Global) -> Distinct
        ensures { HoldsDistinct result [] }
    {
        Distinct {
            values: KeyPlaces::new(alloc),
            kind: NumberKind::Integer,
            span: Bounds {
                least: 1,
                greatest: 0,
            },
            marks: Vec::new(alloc),
        }
    }

    /// Adds the values that rows have in a column.
    pub(crate) fn join(
        &mut self,
        alloc: Global,
        columns: &Columns,
        numbers: &Selection,
        place: usize,
    ) -> Result<(), AllocError>
        requires within { All (λ number. number < length columns.now.rows) numbers.now }
        requires place { place < length columns.now.kinds }
        ensures { OnOk result
            (JoinsValues place self.old self.new (numbered numbers.now columns.now.rows)) }
    {
        let marked = self.marked_column(alloc, columns, numbers.len(), place)?;
        for i in 0..numbers.len() {
            let number = numbers.at(i);
            self.join_row(alloc, marked, RowAt { columns, number }, place)?;
        }
        Ok(())
    }

    /// Adds the value that a row has in a column. It is looked up unless it has a mark.
    #[inline(always)]
    fn join_row(
        &mut self,
        alloc: Global,
        marked: Option<&PackedColumn>,
        row: RowAt<'_>,
        place: usize,
    ) -> Result<(), AllocError>
        requires row { row.number < length row.columns.now.rows }
        requires place { place < length row.columns.now.kinds }
        requires marked { IfSome marked
            (λ cells. IsKeptAs self.old.kind place row.columns.now.rows cells.now) }
        ensures kind { OnOk result (self.new.kind ≡ self.old.kind) }
        ensures joins { OnOk result (JoinsValue self.old self.new
            (value_at (slice_index_or row.entry.columns.now.rows row.entry.number []) place)) }
    {
        cell_types::values_are_ordered();
        let number = match marked {
            Some(column) => column.number(row.number),
            None => None,
        };
        let Some(mark) = self.mark_of(number) else {
            return join_value(
                &mut self.values,
                alloc,
                row.columns.value(row.number, place),
            );
        };
        if !self.marks[mark] {
            join_value(
                &mut self.values,
                alloc,
                row.columns.value(row.number, place),
            )?;
            self.marks[mark] = true;
        }
        Ok(())
    }

    /// Returns the place of the mark of a number, if it has one.
    #[inline(always)]
    fn mark_of(&self, number: Option<i64>) -> Option<usize>
        ensures { IfSome result (λ mark. (mark < length self.now.marks.items)
            × (number ≡ Some (self.now.span.least +ℤ pos mark))) }
    {
        let number = number?;
        if number < self.span.least {
            return None;
        }
        let mark = number.abs_diff(self.span.least) as usize;
        if mark >= self.marks.len() {
            return None;
        }
        Some(mark)
    }

    /// Returns a column of numbers if these have marks. They get marks if they lie near enough to one another.
    fn marked_column<'a>(
        &mut self,
        alloc: Global,
        columns: &'a Columns,
        rows: usize,
        place: usize,
    ) -> Result<Option<&'a PackedColumn>, AllocError>
        requires { place < length columns.now.kinds }
        ensures kept { IfOk result (λ column. IfSome column
            (λ cells. IsKeptAs self.new.kind place columns.now.rows cells.now)) }
        ensures holds { OnOk result ((values : List CellValue)
            → HoldsDistinct self.old values → HoldsDistinct self.new values) }
    {
        if rows < FEWEST_ROWS {
            return Ok(None);
        }
        let Some(column) = columns.packed(place) else {
            return Ok(None);
        };
        let Some(bounds) = column.bounds() else {
            return Ok(None);
        };
        let kind = column.kind();
        let span = self.wider_span(kind, bounds, rows);
        if kind == self.kind && is_same(span, self.span) {
            return Ok(Some(column));
        }
        let Some(count) = few_numbers(span, rows) else {
            return Ok(None);
        };
        self.marks = Vec::from_elem(alloc, false, count)?;
        self.kind = kind;
        self.span = span;
        Ok(Some(column))
    }

    /// Returns the span of some numbers and of those that have marks, or of the first alone if the others are of another kind, or all are too many.
    fn wider_span(&self, kind: NumberKind, bounds: Bounds, rows: usize) -> Bounds {
        if kind != self.kind || self.marks.len() == 0 {
            return bounds;
        }
        let span = Bounds {
            least: self.span.least.min(bounds.least),
            greatest: self.span.greatest.max(bounds.greatest),
        };
        match few_numbers(span, rows) {
            Some(_) => span,
            None => bounds,
        }
    }
}

/// Returns true if two spans are the same.
fn is_same(span: Bounds, other: Bounds) -> bool {
    span.least == other.least && span.greatest == other.greatest
}

/// Returns how many numbers a span has, or `None` if they are too many for marks when `rows` rows join.
fn few_numbers(span: Bounds, rows: usize) -> Option<usize> {
    let last = span.greatest.abs_diff(span.least);
    if last >= MOST_MARKS || last / 16 >= rows as u64 {
        return None;
    }
    Some(last as usize + 1)
}

/// Adds a value to others; null is none. It is looked up before it is copied.
fn join_value(
    values: &mut KeyPlaces<Value<'static>>,
    alloc: Global,
    value: Value<'_>,
) -> Result<(), AllocError>
    ensures { OnOk result (JoinsDistinct (map value_view values.old.keys)
        (map value_view values.new.keys) (filter is_value (value_view value.entry ∷ []))) }
{
    cell_types::values_are_ordered();
    cell_types::values_compare_as_their_views();
    if is_null(&value) {
        return Ok(());
    }
    if values.contains(&value) {
        return Ok(());
    }
    values.insert(owned(alloc, &value)?)?;
    Ok(())
}
