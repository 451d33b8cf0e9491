//! The form that the cells of a column have: a guess.
ghost use Rattle.std.specs.Prelude.{◌≡◌};
ghost use Rattle.column_forms.specs.Choice.{is_plain_form};

use crate::seen::CellsSeen;
use crate::wants::Wants;
use value_forms::{DateOrder, DayForm, Form, NumberForm, Scale};

/// Returns true if a form is of numbers with that point.
fn has_point(form: Form<'_>, point: u8) -> bool {
    match form {
        Form::Number(form) => form.marks.point == point,
        _ => false,
    }
}

/// Returns true if a form is that of numbers that are read as they are.
pub fn is_plain(form: Form<'_>) -> bool
    ensures { result ≡ is_plain_form form.entry }
{
    match form {
        Form::Number(
            NumberForm {
                marks,
                scale: Scale::Plain,
                unit: None,
                ..
            },
        ) => marks.point == b'.' && marks.group == b'.',
        _ => false,
    }
}

/// Which point numbers have, as far as their column says it.
#[derive(Clone, Copy, PartialEq, Eq)]
pub enum Point {
    /// There are no numbers with a mark.
    Unknown,
    Comma,
    Dot,
    /// Either may be.
    Both,
}

/// Returns which point the numbers of a column have.
pub fn point_of(seen: &CellsSeen) -> Point {
    let forms = seen.forms.as_slice();
    let comma = forms.iter().any(|form| has_point(*form, b','));
    let dot = forms.iter().any(|form| has_point(*form, b'.'));
    if !seen.has_mark || !comma && !dot {
        Point::Unknown
    } else if comma && dot {
        Point::Both
    } else if comma {
        Point::Comma
    } else {
        Point::Dot
    }
}

/// What is decided for a column.
#[derive(Clone, Copy)]
pub enum Choice {
    Form(Form<'static>),
    /// The column stays, and its cells are texts.
    Text,
    /// Numbers may have a decimal point or a decimal comma.
    TwoPoints,
    /// Days may come first, or months.
    TwoOrders,
}

/// Returns the first form of numbers with a point, without an exponent if that serves.
fn number_with(forms: &[Form<'static>], point: u8) -> Choice {
    let mut found = Choice::Text;
    for form in forms {
        if has_point(*form, point) {
            if let Form::Number(number) = *form {
                let is_exponent = matches!(number.scale, Scale::Exponent);
                if !is_exponent || matches!(found, Choice::Text) {
                    found = Choice::Form(*form);
                }
                if !is_exponent {
                    return found;
                }
            }
        }
    }
    found
}

/// Returns the day form of a form.
fn day_form(form: Form<'_>) -> Option<DayForm> {
    match form {
        Form::Day(day) | Form::DayAndTime(day) | Form::Midnight(day) => Some(day),
        _ => None,
    }
}

/// Returns the first form of days with an order.
fn day_with(forms: &[Form<'static>], order: DateOrder) -> Option<Form<'static>> {
    for form in forms {
        if let Some(day) = day_form(*form)
            && day.order == order
        {
            return Some(*form);
        }
    }
    None
}

/// Returns the choice for a column of days.
fn day_choice(forms: &[Form<'static>], wants: Wants<'_>) -> Choice {
    let day = day_with(forms, DateOrder::DayFirst);
    let month = day_with(forms, DateOrder::MonthFirst);
    let year = day_with(forms, DateOrder::YearFirst);
    match (year, day, month) {
        (Some(form), _, _) => Choice::Form(form),
        (None, Some(day), Some(month)) => {
            if wants.day_first {
                Choice::Form(day)
            } else if wants.month_first {
                Choice::Form(month)
            } else {
                Choice::TwoOrders
            }
        }
        (None, Some(form), None) | (None, None, Some(form)) => Choice::Form(form),
        (None, None, None) => Choice::Text,
    }
}

/// Returns the choice for a column of numbers, of which the other columns of the file have that point.
fn number_choice(seen: &CellsSeen, wants: Wants<'_>, file: Point, separator: u8) -> Choice {
    let forms = seen.forms.as_slice();
    let asked = if wants.comma {
        Point::Comma
    } else if wants.point {
        Point::Dot
    } else {
        Point::Unknown
    };
    match (point_of(seen), asked, file) {
        (Point::Unknown, _, _) => match number_with(forms, b'.') {
            Choice::Form(form) => Choice::Form(form),
            _ => number_with(forms, b','),
        },
        (Point::Comma, _, _) | (_, Point::Comma, _) => number_with(forms, b','),
        (Point::Dot, _, _) | (_, Point::Dot, _) => number_with(forms, b'.'),
        (_, _, Point::Comma) => number_with(forms, b','),
        (_, _, Point::Dot) => number_with(forms, b'.'),
        _ if separator == b',' && forms.iter().any(|form| is_plain(*form)) => {
            number_with(forms, b'.')
        }
        _ => Choice::TwoPoints,
    }
}

/// Returns the choice for a column.
pub fn choice_of(seen: &CellsSeen, wants: Wants<'_>, file: Point, separator: u8) -> Choice {
    if wants.text {
        return Choice::Text;
    }
    match seen.forms.first() {
        Some(Form::Number(_)) => number_choice(seen, wants, file, separator),
        Some(Form::Truth(words)) => {
            if seen.is_even {
                Choice::Text
            } else {
                Choice::Form(Form::Truth(*words))
            }
        }
        Some(_) => day_choice(seen.forms.as_slice(), wants),
        None => Choice::Text,
    }
}
