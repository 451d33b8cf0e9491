//! What is written for a cell.
ghost use Rattle.std.specs.Prelude.{◌≡◌, ◌++◌, [], IfOk, OnOk, map, option_map, unwrap_or};
ghost use Rattle.std.specs.Cow.{cow_slice_items};
ghost use Rattle.value_forms.specs.Forms.{cell_made};
ghost use Rattle.file_convert.specs.Rows.{IsMadeIn, has_time, is_dropped, out_cells, rounding, title_cells};

use crate::report::ReportKind;
use column_forms::{is_plain, null_place, seen_text};
use csv_records::{RecordCell, push_cell};
use std::alloc::{AllocError, Global};
use std::borrow::CowSlice;
use value_forms::{Form, Made, NumberForm, made_by};

/// The end of the name of a column with the times of day of another.
const TIME: &[u8] = b"_time";

/// Returns true if the times of day of a column get one of their own.
pub fn has_time(kind: ReportKind) -> bool
    ensures { result ≡ has_time kind }
{
    matches!(kind, ReportKind::Form(Form::DayAndTime(_)))
}

/// Returns true if a column is left out.
pub fn is_dropped(kind: ReportKind) -> bool
    ensures { result ≡ is_dropped kind }
{
    matches!(kind, ReportKind::Empty)
}

/// Returns a form with the rounding that is asked for.
fn rounding(rounds: bool, form: Form<'static>) -> Form<'static>
    ensures { result ≡ rounding rounds form.entry }
{
    match form {
        Form::Number(number) => Form::Number(NumberForm { rounds, ..number }),
        other => other,
    }
}

/// Returns the value of a cell by what is found in its column.
pub(crate) fn made_in(
    alloc: Global,
    kind: ReportKind,
    rounds: bool,
    cell: &[u8],
) -> Result<Option<Made>, AllocError>
    ensures { IfOk result (λ made. IsMadeIn kind rounds cell.now (option_map cell_made made)) }
{
    let ReportKind::Form(form) = kind else {
        return Ok(None);
    };
    if null_place(cell).is_some() {
        return Ok(None);
    }
    if is_plain(form) {
        return if rounds {
            made_by(alloc, Form::Round, cell)
        } else {
            Ok(None)
        };
    }
    let text = seen_text(alloc, cell)?;
    made_by(alloc, rounding(rounds, form), text.as_slice())
}

/// Returns the cell of a time of day; an empty one if there is none.
fn time_cell<'a>(time: Option<Vec<u8>>) -> RecordCell<'a>
    ensures { cow_slice_items result ≡ unwrap_or (option_map (λ time. time.items) time) [] }
{
    match time {
        Some(time) => CowSlice::Owned(time),
        None => CowSlice::Borrowed(&[]),
    }
}

/// Appends what is written for a cell: its value, or the cell as it is, and a time of day.
pub(crate) fn push_made<'a>(
    row: &mut Vec<RecordCell<'a>>,
    kind: ReportKind,
    cell: &'a [u8],
    made: Option<Made>,
) -> Result<(), AllocError>
    ensures { OnOk result (map cow_slice_items row.new.items
        ≡ map cow_slice_items row.old.items
        ++ out_cells kind cell.now (option_map cell_made made)) }
{
    if is_dropped(kind) {
        return Ok(());
    }
    let (text, time) = match made {
        Some(made) => (CowSlice::Owned(made.text), made.time),
        None => (CowSlice::Borrowed(cell), None),
    };
    push_cell(row, text)?;
    if has_time(kind) {
        push_cell(row, time_cell(time))?;
    }
    Ok(())
}

/// Appends the header cells of a column.
pub(crate) fn push_titles<'a>(
    alloc: Global,
    row: &mut Vec<RecordCell<'a>>,
    kind: ReportKind,
    title: &'a [u8],
) -> Result<(), AllocError>
    ensures { OnOk result (map cow_slice_items row.new.items
        ≡ map cow_slice_items row.old.items ++ title_cells kind title.now) }
{
    if is_dropped(kind) {
        return Ok(());
    }
    push_cell(row, CowSlice::Borrowed(title))?;
    if has_time(kind) {
        let mut name = Vec::from_slice(alloc, title)?;
        name.extend_from_slice(TIME)?;
        push_cell(row, CowSlice::Owned(name))?;
    }
    Ok(())
}
