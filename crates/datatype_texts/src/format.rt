//! The formats of datatypes: of booleans their two texts, of dates their pattern.
ghost use Rattle.std.specs.Prelude.{◌≡◌, is_some, option_map, IfOk};
ghost use Rattle.cell_types.specs.Datatype.{datatype_view, pattern_of as pattern};
ghost use Rattle.datatype_texts.specs.Names.{boolean_of_texts, boolean_texts as boolean_texts_of, date_form as date_form_of};
ghost use Rattle.datatype_texts.specs.Names.{format_of_datatype, format_view, has_formats as has_formats_of, with_format as with_format_of};

use cell_types::{BooleanForm, Datatype, DateForm};
use std::alloc::{AllocError, Global};

/// What metadata says of a datatype besides its name.
#[derive(Clone, Copy)]
pub enum DatatypeFormat<'d> {
    /// Nothing.
    Absent,
    /// The pattern of dates.
    Pattern(&'static str),
    /// The text of true, and that of false.
    Texts(&'d str, &'d str),
}

/// Returns the pattern of a form of dates.
fn pattern_of(form: DateForm) -> &'static str
    ensures { result.now ≡ pattern form }
{
    match form {
        DateForm::YearMonthDay => "yyyy-MM-dd",
        DateForm::Compact => "yyyyMMdd",
        DateForm::DayMonthYear => "dd/MM/yyyy",
        DateForm::MonthDayYear => "MM/dd/yyyy",
        DateForm::Dotted => "dd.MM.yyyy",
    }
}

/// Returns the format of a datatype.
pub fn format_of(datatype: &Datatype) -> DatatypeFormat<'_>
    ensures { format_view result ≡ format_of_datatype (datatype_view datatype.now) }
{
    match datatype {
        Datatype::Boolean(BooleanForm::Texts(of_true, of_false)) => {
            DatatypeFormat::Texts(of_true.as_str(), of_false.as_str())
        }
        Datatype::Date(form) => DatatypeFormat::Pattern(pattern_of(*form)),
        Datatype::Integer
        | Datatype::Text
        | Datatype::Boolean(BooleanForm::Standard)
        | Datatype::Decimal => DatatypeFormat::Absent,
    }
}

/// Returns true if the texts of a datatype may have a format: it is a boolean or a date.
pub fn has_formats(datatype: &Datatype) -> bool
    ensures { result ≡ has_formats_of (datatype_view datatype.now) }
{
    matches!(datatype, Datatype::Boolean(_) | Datatype::Date(_))
}

/// Returns the text of true and that of false of a format `T|F`.
fn boolean_texts(format: &str) -> Option<(&str, &str)>
    ensures { option_map (λ texts. (texts.0.now, texts.1.now)) result
        ≡ boolean_texts_of format.now }
{
    let (of_true, of_false) = format.split_once('|')?;
    if of_true.is_empty() || of_false.is_empty() || of_true == of_false {
        return None;
    }
    if of_false.as_bytes().contains(&b'|') {
        return None;
    }
    Some((of_true, of_false))
}

/// Returns the form of dates with that pattern.
fn date_form(format: &str) -> Option<DateForm>
    ensures { result ≡ date_form_of format.now }
{
    DateForm::of_pattern(format)
}

/// Returns true if a datatype may have that format.
pub fn has_format(datatype: &Datatype, format: &str) -> bool
    ensures { result ≡ is_some (with_format_of (datatype_view datatype.now) format.now) }
{
    match datatype {
        Datatype::Boolean(_) => boolean_texts(format).is_some(),
        Datatype::Date(_) => date_form(format).is_some(),
        Datatype::Integer | Datatype::Text | Datatype::Decimal => false,
    }
}

/// Returns a boolean with the texts of a format.
fn make_boolean(alloc: Global, format: &str) -> Result<Option<Datatype>, AllocError>
    ensures { IfOk result (λ made.
        option_map datatype_view made ≡ option_map boolean_of_texts (boolean_texts_of format.now)) }
{
    let Some((of_true, of_false)) = boolean_texts(format) else {
        return Ok(None);
    };
    let of_true = String::from_str(alloc, of_true)?;
    let of_false = String::from_str(alloc, of_false)?;
    Ok(Some(Datatype::Boolean(BooleanForm::Texts(of_true, of_false))))
}

/// Returns a datatype with a format, if it may have that one. Its own format, if it has one, does not count.
pub fn with_format(
    alloc: Global,
    datatype: &Datatype,
    format: &str,
) -> Result<Option<Datatype>, AllocError>
    ensures { IfOk result (λ made.
        option_map datatype_view made ≡ with_format_of (datatype_view datatype.now) format.now) }
{
    match datatype {
        Datatype::Boolean(_) => make_boolean(alloc, format),
        Datatype::Date(_) => Ok(date_form(format).map(Datatype::Date)),
        Datatype::Integer | Datatype::Text | Datatype::Decimal => Ok(None),
    }
}
