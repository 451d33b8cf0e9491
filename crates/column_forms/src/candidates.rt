//! The forms that the cells of a column may have: a guess.
use std::alloc::{AllocError, Global};
use value_forms::{
    DateOrder, DayForm, Form, Marks, NumberForm, Scale, TRUTHS, TruthWords, UNITS, Unit, split_time,
};

/// The marks of numbers that are tried, the point and what is between thousands.
const MARKS: [(u8, u8); 8] = [
    (b'.', b'.'),
    (b'.', b','),
    (b',', b'.'),
    (b',', b' '),
    (b'.', b' '),
    (b'.', b'\''),
    (b',', b'\''),
    (b',', b','),
];

/// The bytes between the parts of days that are tried.
const SEPARATORS: [u8; 4] = [b'/', b'.', b'-', b' '];

/// Returns the currency that a cell has before or after its number.
fn unit_in(cell: &str) -> Option<Unit<'static>> {
    for text in UNITS {
        if cell.starts_with(text) {
            return Some(Unit {
                text,
                is_before: true,
            });
        }
        if cell.ends_with(text) {
            return Some(Unit {
                text,
                is_before: false,
            });
        }
    }
    None
}

/// The forms so far.
#[derive(Drop)]
struct Forms {
    list: Vec<Form<'static>>,
}

/// Adds the forms of numbers that a cell may have.
fn push_numbers(forms: &mut Forms, cell: &str) -> Result<(), AllocError> {
    let unit = unit_in(cell);
    let mut scale = Scale::Plain;
    if cell.ends_with('%') {
        scale = Scale::Percent;
    }
    for (point, group) in MARKS {
        let form = NumberForm {
            marks: Marks { point, group },
            scale,
            unit,
            rounds: false,
        };
        forms.list.push(Form::Number(form))?;
        if matches!(scale, Scale::Plain) {
            forms.list.push(Form::Number(NumberForm {
                scale: Scale::Exponent,
                ..form
            }))?;
        }
    }
    Ok(())
}

/// Adds the forms of days with a separator that a cell may have.
fn push_days(forms: &mut Forms, day: DayForm, has_time: bool) -> Result<(), AllocError> {
    if has_time {
        forms.list.push(Form::Midnight(day))?;
        forms.list.push(Form::DayAndTime(day))?;
    } else {
        forms.list.push(Form::Day(day))?;
    }
    Ok(())
}

/// Adds the forms of dates that a cell may have.
fn push_dates(forms: &mut Forms, cell: &str) -> Result<(), AllocError> {
    let has_time = split_time(cell.as_bytes()).is_some();
    let letters = cell.bytes().filter(|byte| byte.is_ascii_alphabetic());
    let is_named = letters.count() > 2;
    for separator in SEPARATORS {
        for order in [
            DateOrder::YearFirst,
            DateOrder::DayFirst,
            DateOrder::MonthFirst,
        ] {
            let is_dotted = separator == b'.' && matches!(order, DateOrder::MonthFirst);
            let is_spaced = separator == b' ' && !is_named;
            if !is_dotted && !is_spaced {
                let day = DayForm {
                    order,
                    separator,
                    is_named,
                };
                push_days(forms, day, has_time)?;
            }
        }
    }
    Ok(())
}

/// Adds the words of true and false of which a cell is one.
fn push_truths(forms: &mut Forms, cell: &str) -> Result<(), AllocError> {
    for (of_true, of_false) in TRUTHS {
        if of_true == cell || of_false == cell {
            forms
                .list
                .push(Form::Truth(TruthWords { of_true, of_false }))?;
        }
    }
    Ok(())
}

/// Returns true if a cell has a digit.
fn has_digit(cell: &str) -> bool {
    cell.bytes().any(|byte| byte.is_ascii_digit())
}

/// Returns the forms that a column may have by its first cell that is not null.
pub(crate) fn candidates_of(alloc: Global, cell: &str) -> Result<Vec<Form<'static>>, AllocError> {
    let mut forms = Forms {
        list: Vec::new(alloc),
    };
    if has_digit(cell) {
        if cell.len() < 40 {
            push_numbers(&mut forms, cell)?;
            push_dates(&mut forms, cell)?;
        }
    } else {
        push_truths(&mut forms, cell)?;
    }
    Ok(forms.list)
}
