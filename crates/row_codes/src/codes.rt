//! Codes of rows by their values in some columns.
ghost use Rattle.std.specs.Prelude.{◌≡◌, ◌+◌, ◌*◌, ◌<◌, ◌≤◌, ◌^◌, ℕ, ℤ, List, None, Some, IfOk, IfSome, length, slice_index_or};
ghost use Rattle.std.specs.List.{All};
ghost use Rattle.block_summary.specs.Types.{numbers_of};
ghost use Rattle.cell_types.specs.Value.{CellValue};
ghost use Rattle.row_columns.specs.Picked.{numbered};
ghost use Rattle.row_codes.specs.Codes.{joined_values, number_of_code, value_alone, AreFewCodes, HaveCodesOf, HaveKeyCodes, HaveNumberCodes, HaveTextCodes, LiesIn, MayJoinCodes};

use block_summary::PackedColumn;
use row_columns::Columns;
use row_selection::Selection;
use std::alloc::{AllocError, Global};

/// Codes are no more.
const MOST_CODES: usize = 4096;

/// A code for each of some rows, less than a count. Rows with the same code have the same values.
#[derive(Drop)]
pub struct Codes {
    pub codes: Vec<u16>,
    pub count: usize,
}

/// Numbers that lie at most so far above a least one.
#[derive(Clone, Copy)]
struct Span {
    least: i64,
    last: u16,
}

/// Returns a span in which all numbers of a column lie, or `None` if there is none with few numbers.
fn span_of(column: &PackedColumn) -> Option<Span>
    ensures within { IfSome result (λ span. (i : ℕ) (n : ℤ)
        → slice_index_or (numbers_of column.now) i None ≡ Some n → LiesIn span n) }
    ensures few { IfSome result (λ span. span.last + 2 ≤ MOST_CODES) }
{
    let Some(bounds) = column.bounds() else {
        return Some(Span { least: 0, last: 0 });
    };
    let last = bounds.greatest.abs_diff(bounds.least);
    if last > MOST_CODES as u64 - 2 {
        return None;
    }
    Some(Span {
        least: bounds.least,
        last: last as u16,
    })
}

/// Returns the code of a number in a span: how far it lies above the least one. The code after those is that of null.
#[inline(always)]
fn code_of(number: Option<i64>, span: Span) -> u16
    requires within { IfSome number (LiesIn span) }
    requires few { span.last + 2 ≤ MOST_CODES }
    ensures number { number ≡ number_of_code span.least (span.last + 1) result }
    ensures below { result < span.last + 2 }
{
    match number {
        Some(number) => number.abs_diff(span.least) as u16,
        None => span.last + 1,
    }
}

/// Returns the codes of the rows with these numbers by the numbers that they have in a column, if these lie near one another.
fn number_codes(
    alloc: Global,
    column: &PackedColumn,
    numbers: &Selection,
) -> Result<Option<Codes>, AllocError>
    ensures { IfOk result (λ made. IfSome made
        (HaveNumberCodes (numbers_of column.now) numbers.now)) }
{
    let Some(span) = span_of(column) else {
        return Ok(None);
    };
    let mut codes = Vec::with_capacity(alloc, numbers.len())?;
    for i in 0..numbers.len() {
        codes.push(code_of(column.number(numbers.at(i)), span))?;
    }
    let count = usize::from(span.last) + 2;
    Ok(Some(Codes { codes, count }))
}

/// Returns the codes of the rows with these numbers, by the codes of all rows.
fn text_codes(alloc: Global, texts: &[u8], numbers: &Selection) -> Result<Codes, AllocError>
    requires { All (λ number. number < length texts.now) numbers.now }
    ensures { IfOk result (HaveTextCodes texts.now numbers.now) }
{
    let mut codes = Vec::with_capacity(alloc, numbers.len())?;
    let mut count = 1;
    for i in 0..numbers.len() {
        let code = texts[numbers.at(i)];
        codes.push(u16::from(code))?;
        count = count.max(usize::from(code) + 1);
    }
    Ok(Codes { codes, count })
}

/// Returns the codes of the rows with these numbers by their values in a column, if few values come into question.
fn column_codes(
    alloc: Global,
    columns: &Columns,
    numbers: &Selection,
    place: usize,
) -> Result<Option<Codes>, AllocError>
    requires within { All (λ number. number < length columns.now.rows) numbers.now }
    requires place { place < length columns.now.kinds }
    ensures { IfOk result (λ made. IfSome made
        (HaveCodesOf (value_alone place) (numbered numbers.now columns.now.rows))) }
{
    if let Some(texts) = columns.codes(alloc, place)? {
        let codes = text_codes(alloc, &texts, numbers)?;
        return Ok(Some(codes));
    }
    let Some(column) = columns.packed(place) else {
        return Ok(None);
    };
    let _kind = column.kind(); // of that kind the cells are what the numbers stand for
    number_codes(alloc, column, numbers)
}

/// Writes one code for each two.
fn join_each(left: &[u16], right: &[u16], count: u16, out: &mut [u16])
    requires left { length left.now ≡ length out.old }
    requires right { length right.now ≡ length out.old }
    requires fits { (i : ℕ) → i < length out.old
        → slice_index_or left.now i 0 * count + slice_index_or right.now i 0 < 2 ^ 16 }
    ensures { (i : ℕ) → i < length out.new → slice_index_or out.new i 0
        ≡ slice_index_or left.now i 0 * count + slice_index_or right.now i 0 }
{
    for i in 0..out.len() {
        out[i] = left[i] * count + right[i];
    }
}

/// Returns the codes of rows by two codes of each, if they are not too many.
fn joined(alloc: Global, left: &Codes, right: &Codes) -> Result<Option<Codes>, AllocError>
    requires { MayJoinCodes left.now right.now }
    ensures { IfOk result (λ made. IfSome made (λ made.
        (f g : List CellValue → List CellValue) (rows : List (List CellValue))
        → HaveCodesOf f rows left.now → HaveCodesOf g rows right.now
        → HaveCodesOf (joined_values f g) rows made)) }
{
    let count = left.count * right.count;
    if count > MOST_CODES {
        return Ok(None);
    }
    let mut codes = Vec::from_elem(alloc, 0u16, left.codes.len())?;
    join_each(
        left.codes.as_slice(),
        right.codes.as_slice(),
        right.count as u16,
        codes.as_mut_slice(),
    );
    Ok(Some(Codes { codes, count }))
}

/// Returns the codes of the rows with these numbers by their values in the columns with these places, if few values come into question.
pub fn key_codes(
    alloc: Global,
    columns: &Columns,
    numbers: &Selection,
    places: &[usize],
) -> Result<Option<Codes>, AllocError>
    requires within { All (λ number. number < length columns.now.rows) numbers.now }
    requires places { All (λ place. place < length columns.now.kinds) places.now }
    ensures { IfOk result (λ made. IfSome made
        (HaveKeyCodes places.now (numbered numbers.now columns.now.rows))) }
{
    let mut codes = Codes {
        codes: Vec::from_elem(alloc, 0u16, numbers.len())?,
        count: 1,
    };
    for place in places {
        let Some(more) = column_codes(alloc, columns, numbers, *place)? else {
            return Ok(None);
        };
        match joined(alloc, &codes, &more)? {
            Some(made) => codes = made,
            None => return Ok(None),
        }
    }
    Ok(Some(codes))
}
