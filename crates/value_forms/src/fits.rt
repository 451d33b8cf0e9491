//! Whether a text is of a form, for which nothing is made.
use crate::date::{DayForm, is_day};
use crate::decimal::{are_digits, before_end, parts, without_sign};
use crate::form::{Form, NumberForm, Scale, bare_text};
use crate::number::{Marks, is_whole};
use crate::scale::{cut_at_letter, exponent_moves, trimmed_end};
use crate::time::{is_midnight, split_time};
use crate::truth::truth_text;

/// Returns true if a text is a number with these marks.
fn is_marked(marks: Marks, text: &[u8]) -> bool {
    let (whole, fraction) = parts(marks.point, without_sign(text));
    is_whole(marks.group, whole) && are_digits(fraction)
}

/// Returns true if a text is a number with an exponent of ten.
fn has_exponent(marks: Marks, text: &[u8]) -> bool {
    match cut_at_letter(text) {
        Some((number, exponent)) => {
            exponent_moves(number.contains(&marks.point), exponent).is_some()
                && is_marked(marks, number)
        }
        None => false,
    }
}

/// Returns true if a text is a number before a percent sign.
fn is_percent(marks: Marks, text: &[u8]) -> bool {
    match before_end(b'%', text) {
        Some(front) => is_marked(marks, trimmed_end(front)),
        None => false,
    }
}

/// Returns true if a text is a number in a form.
fn is_number(form: NumberForm<'_>, text: &[u8]) -> bool {
    let Some(bare) = bare_text(form.unit, text) else {
        return false;
    };
    match form.scale {
        Scale::Plain => is_marked(form.marks, bare),
        Scale::Percent => is_percent(form.marks, bare),
        Scale::Exponent => is_marked(form.marks, bare) || has_exponent(form.marks, bare),
    }
}

/// Returns true if a text is a day with a time of day, which has to be midnight unless `keeps` says otherwise.
fn is_timed(form: DayForm, text: &[u8], keeps: bool) -> bool {
    match split_time(text) {
        Some((day, time)) => (keeps || is_midnight(time)) && is_day(form, day),
        None => false,
    }
}

/// Returns true if a text has a value in a form of numbers with marks, of days or of truth words.
pub fn is_of_form(form: Form<'_>, text: &[u8]) -> bool {
    match form {
        Form::Same | Form::Round => false,
        Form::Number(form) => is_number(form, text),
        Form::Day(form) => is_day(form, text),
        Form::DayAndTime(form) => is_timed(form, text, true),
        Form::Midnight(form) => is_timed(form, text, false),
        Form::Truth(words) => truth_text(words, text).is_some(),
    }
}
