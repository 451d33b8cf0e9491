//! Where rows stand.
ghost use Rattle.std.specs.Prelude.{◌≡◌, ◌+◌, ◌<◌, ◌≤◌, ◌^◌, [], IfOk, IfSome, IsTrue, length, map, option_map, slice_index_or};
ghost use Rattle.std.specs.List.{All};
ghost use Rattle.block_summary.specs.Ranges.{column_of};
ghost use Rattle.cell_types.specs.Column.{column_view};
ghost use Rattle.cell_types.specs.Value.{null, value_view};
ghost use Rattle.row_columns.specs.Cell.{cell_view};
ghost use Rattle.row_columns.specs.Codes.{HaveCodes};
ghost use Rattle.row_columns.specs.Kinds.{kinds_of, of_kind};
ghost use Rattle.row_columns.specs.Numbers.{numbers_from};
ghost use Rattle.row_columns.specs.Picked.{kinds_at, numbered, values_at};
ghost use Rattle.row_columns.specs.Piece.{piece_at};
ghost use Rattle.row_columns.specs.Store.{end_of, stored_kinds, stored_row, IsPicked, IsStoredWide, HasTakenRows};
ghost use Rattle.row_columns.specs.Text.{text_of_cell};
ghost use Rattle.text_columns.specs.PlainParts.{IsPlainCell};

use crate::cell::{Cell, cell_of, text_of};
use crate::piece::Piece;
use block_summary::{BLOCK_ROWS, PackedColumn};
use cell_types::{Column, ColumnKind, Value};
use row_selection::Selection;
use std::alloc::{AllocError, Global};
use table_store::Block;
use value_rows::ValueRows;

/// How many numbers 32 bits tell.
const NUMBERS: usize = 1 << 32;

/// How many blocks have rows with numbers.
const MOST_PIECES: usize = 1 << 20;

/// Where rows stand.
#[derive(Drop)]
pub(crate) enum Store {
    /// In blocks that are shared with their table. Of each column its kind is known.
    Blocks(Vec<ColumnKind>, Vec<Piece>),
    /// As values of any kind.
    Values(ValueRows),
}

/// Returns the kind of each column.
pub(crate) fn all_kinds(alloc: Global, columns: &[Column]) -> Result<Vec<ColumnKind>, AllocError>
    ensures { IfOk result
        (λ made. map of_kind made.items ≡ kinds_of (map column_view columns.now)) }
{
    let mut made = Vec::with_capacity(alloc, columns.len())?;
    for column in columns {
        made.push(column.datatype.kind())?;
    }
    Ok(made)
}

/// Returns the kinds of those of the columns that have these places.
pub(crate) fn kinds_at_places(
    alloc: Global,
    columns: &[Column],
    places: &[usize],
) -> Result<Vec<ColumnKind>, AllocError>
    requires { All (λ place. place < length columns.now) places.now }
    ensures { IfOk result (λ made. map of_kind made.items
        ≡ kinds_at places.now (kinds_of (map column_view columns.now))) }
{
    let mut made = Vec::with_capacity(alloc, places.len())?;
    for place in places {
        made.push(columns[*place].datatype.kind())?;
    }
    Ok(made)
}

/// Returns those of the kinds that have these places.
fn picked_kinds(
    alloc: Global,
    kinds: &[ColumnKind],
    places: &[usize],
) -> Result<Vec<ColumnKind>, AllocError>
    requires { All (λ place. place < length kinds.now) places.now }
    ensures { IfOk result (λ made.
        map of_kind made.items ≡ kinds_at places.now (map of_kind kinds.now)) }
{
    let mut made = Vec::with_capacity(alloc, places.len())?;
    for place in places {
        made.push(kinds[*place])?;
    }
    Ok(made)
}

/// Returns the pieces with only the columns that have these places.
fn pieces_picked(
    alloc: Global,
    pieces: &[Piece],
    places: &[usize],
) -> Result<Vec<Piece>, AllocError>
    requires { All (λ piece. All (λ place. place < length piece) places.now) pieces.now }
    ensures { IfOk result (λ made. made.items ≡ map (piece_at places.now) pieces.now) }
{
    let mut made = Vec::with_capacity(alloc, pieces.len())?;
    for piece in pieces {
        made.push(piece.picked(alloc, places)?)?;
    }
    Ok(made)
}

impl Store {
    /// Returns no columns, and no rows.
    pub(crate) fn none(alloc: Global) -> Store
        ensures kinds { stored_kinds result ≡ [] }
        ensures end { end_of result ≡ 0 }
        ensures wide { IsStoredWide result }
    {
        Store::Blocks(Vec::new(alloc), Vec::new(alloc))
    }

    /// Returns how many columns there are.
    pub(crate) fn width(&self) -> usize
        ensures { result ≡ length (stored_kinds self.now) }
    {
        match self {
            Store::Blocks(kinds, _) => kinds.len(),
            Store::Values(rows) => rows.width(),
        }
    }

    /// Returns the value of the row with a number.
    #[inline(always)]
    pub(crate) fn value(&self, number: usize, col: usize) -> Value<'_>
        requires wide { IsStoredWide self.now }
        requires number { number < end_of self.now }
        requires col { col < length (stored_kinds self.now) }
        ensures { value_view result ≡ slice_index_or (stored_row self.now number) col null }
    {
        match self {
            Store::Blocks(_, pieces) => pieces[number / BLOCK_ROWS].value(number % BLOCK_ROWS, col),
            Store::Values(rows) => rows.value(number, col),
        }
    }

    /// Returns the cell of the row with a number, as it is kept.
    #[inline(always)]
    pub(crate) fn cell(&self, number: usize, col: usize) -> Cell<'_>
        requires wide { IsStoredWide self.now }
        requires number { number < end_of self.now }
        requires col { col < length (stored_kinds self.now) }
        ensures { cell_view result ≡ slice_index_or (stored_row self.now number) col null }
    {
        match self {
            Store::Blocks(_, pieces) => pieces[number / BLOCK_ROWS].cell(number % BLOCK_ROWS, col),
            Store::Values(rows) => cell_of(rows.lent(number, col)),
        }
    }

    /// Returns true if each byte of the text of the row with a number is known to stand for itself, in JSON or in CSV.
    #[inline(always)]
    pub(crate) fn is_plain<const JSON: bool>(&self, number: usize, col: usize) -> bool
        requires wide { IsStoredWide self.now }
        requires number { number < end_of self.now }
        requires col { col < length (stored_kinds self.now) }
        ensures { IsTrue result
            → IsPlainCell JSON (slice_index_or (stored_row self.now number) col null) }
    {
        match self {
            Store::Blocks(_, pieces) => {
                pieces[number / BLOCK_ROWS].is_plain::<JSON>(number % BLOCK_ROWS, col)
            }
            Store::Values(_) => false,
        }
    }

    /// Returns the text of the row with a number, or `None` if the value is null, or no text.
    #[inline(always)]
    pub(crate) fn text(&self, number: usize, col: usize) -> Option<&str>
        requires wide { IsStoredWide self.now }
        requires number { number < end_of self.now }
        requires col { col < length (stored_kinds self.now) }
        ensures { option_map (λ t. t.now) result
            ≡ text_of_cell (slice_index_or (stored_row self.now number) col null) }
    {
        match self {
            Store::Blocks(_, pieces) => pieces[number / BLOCK_ROWS].text(number % BLOCK_ROWS, col),
            Store::Values(rows) => text_of(rows.lent(number, col)),
        }
    }

    /// Returns the packed cells of a column if the numbers of `run` are exactly those of the last block; `None` for texts.
    pub(crate) fn packed(&self, run: (usize, usize), col: usize) -> Option<&PackedColumn>
        requires wide { IsStoredWide self.now }
        requires col { col < length (stored_kinds self.now) }
        ensures { IfSome result (λ cells.
            cells.now ≡ column_of (map (stored_row self.now) (numbers_from run.0 run.1)) col) }
    {
        let Store::Blocks(_, pieces) = self else {
            return None;
        };
        let (first, count) = run;
        if pieces.is_empty() || pieces.len() > MOST_PIECES || count > BLOCK_ROWS {
            return None;
        }
        let last = pieces.len() - 1;
        let cells = pieces[last].packed(col)?;
        if cells.len() != count || first != last * BLOCK_ROWS {
            return None;
        }
        Some(cells)
    }

    /// Returns the codes of the rows by their values in a column if the numbers of `run` are exactly those of the last block, and it has such codes.
    pub(crate) fn codes(
        &self,
        alloc: Global,
        run: (usize, usize),
        col: usize,
    ) -> Result<Option<Vec<u8>>, AllocError>
        requires wide { IsStoredWide self.now }
        requires col { col < length (stored_kinds self.now) }
        ensures { IfOk result (λ codes. IfSome codes (λ codes. HaveCodes codes.items col
            (map (stored_row self.now) (numbers_from run.0 run.1)))) }
    {
        let Store::Blocks(_, pieces) = self else {
            return Ok(None);
        };
        let (first, count) = run;
        if pieces.is_empty() || pieces.len() > MOST_PIECES || count > BLOCK_ROWS {
            return Ok(None);
        }
        let last = pieces.len() - 1;
        let Some(codes) = pieces[last].codes(col) else {
            return Ok(None);
        };
        if codes.len() != count || first != last * BLOCK_ROWS {
            return Ok(None);
        }
        let all = Vec::from_slice(alloc, codes)?;
        Ok(Some(all))
    }

    /// Returns the rows under the same numbers, in the columns with these places.
    pub(crate) fn picked(&self, alloc: Global, places: &[usize]) -> Result<Store, AllocError>
        requires wide { IsStoredWide self.now }
        requires places { All (λ place. place < length (stored_kinds self.now)) places.now }
        ensures { IfOk result (IsPicked places.now self.now) }
    {
        match self {
            Store::Blocks(kinds, pieces) => {
                let kinds = picked_kinds(alloc, kinds.as_slice(), places)?;
                Ok(Store::Blocks(kinds, pieces_picked(alloc, pieces.as_slice(), places)?))
            }
            Store::Values(rows) => Ok(Store::Values(rows.picked(alloc, places)?)),
        }
    }

    /// Takes the values that the selected rows of a block have in the columns with these places: the numbers of these rows among all, each after a start.
    pub(crate) fn take(
        &mut self,
        alloc: Global,
        block: &Block<'_>,
        places: &[usize],
        rows: Selection,
    ) -> Result<(usize, Selection), AllocError>
        requires wide { IsStoredWide self.old }
        requires width { length (stored_kinds self.old) ≡ length places.now }
        requires places { All (λ place. place < length block.now.schema.columns) places.now }
        requires within { All (λ number. number < length block.now.rows) rows }
        ensures taken { IfOk result (λ made. HasTakenRows self.old self.new
            (map (values_at places.now) (numbered rows block.now.rows))
            (map (λ row. made.0 + row) made.1)) }
        ensures few { IfOk result (λ _. end_of self.new ≤ 2 ^ 32) }
    {
        block.rows_are_few();
        match self {
            Store::Blocks(_, pieces) => {
                if pieces.len() >= MOST_PIECES {
                    return Err(AllocError);
                }
                let start = pieces.len() * BLOCK_ROWS;
                pieces.push(Piece::of_places(alloc, block, places)?)?;
                Ok((start, rows))
            }
            Store::Values(values) => {
                let start = values.len();
                let numbers = rows.to_vec(alloc)?;
                values.take(alloc, block, places, numbers.as_slice())?;
                // That many rows of values would not fit in memory.
                if values.len() > NUMBERS {
                    return Err(AllocError);
                }
                Ok((start, Selection::all(numbers.len())))
            }
        }
    }

    /// Lets go of all rows.
    pub(crate) fn clear(&mut self)
        ensures kinds { stored_kinds self.new ≡ stored_kinds self.old }
        ensures wide { IsStoredWide self.new }
    {
        match self {
            Store::Blocks(_, pieces) => pieces.clear(),
            Store::Values(rows) => rows.clear(),
        }
    }
}
