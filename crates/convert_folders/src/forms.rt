//! The words for forms.
use value_forms::{DateOrder, DayForm, Form, NumberForm, Scale};

/// Returns what numbers look like by their marks.
fn marks_words(form: NumberForm<'_>) -> &'static str {
    match (form.marks.point, form.marks.group) {
        (b',', b' ') => "decimal comma, spaces between thousands",
        (b',', b'\'') => "decimal comma, apostrophes between thousands",
        (b',', _) => "decimal comma",
        (_, b',') => "commas between thousands",
        (_, b' ') => "spaces between thousands",
        (_, b'\'') => "apostrophes between thousands",
        _ => "numbers",
    }
}

/// Returns what is done with numbers of a form.
fn number_words(form: NumberForm<'_>) -> (&'static str, &'static str) {
    let more = match (form.scale, form.unit) {
        (Scale::Percent, _) => ", percent, which is divided by 100",
        (Scale::Exponent, _) => ", exponents, which are written out",
        (_, Some(_)) => ", a currency, which is left out",
        _ => "",
    };
    (marks_words(form), more)
}

/// Returns what days look like.
fn day_words(form: DayForm) -> &'static str {
    match (form.order, form.is_named) {
        (DateOrder::YearFirst, false) => "dates with the year first",
        (DateOrder::DayFirst, false) => "dates with the day first",
        (DateOrder::MonthFirst, false) => "dates with the month first",
        (DateOrder::YearFirst, true) => "dates with the year first and names of months",
        (DateOrder::DayFirst, true) => "dates with the day first and names of months",
        (DateOrder::MonthFirst, true) => "dates with the name of the month first",
    }
}

/// Returns the words for a form, in two parts.
pub(crate) fn form_words(form: Form<'_>) -> (&'static str, &'static str) {
    match form {
        Form::Same => ("", ""),
        Form::Number(form) => number_words(form),
        Form::Round => ("numbers", ""),
        Form::Day(form) => (day_words(form), ""),
        Form::DayAndTime(form) => (
            day_words(form),
            ", and a time of day, which gets a column of its own",
        ),
        Form::Midnight(form) => (
            day_words(form),
            ", and midnight as the time of day, which is left out",
        ),
        Form::Truth(_) => ("words of true and false", ""),
    }
}
