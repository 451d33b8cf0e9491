//! The names of datatypes.
ghost use Rattle.std.specs.Prelude.{◌≡◌, option_map};
ghost use Rattle.cell_types.specs.Datatype.{datatype_view};
ghost use Rattle.datatype_texts.specs.Names.{datatype_named as named, name_of_datatype};

use cell_types::{BooleanForm, Datatype, DateForm};

/// Returns the datatype of that name, if it is served, as it is without a format.
pub fn datatype_named(name: &str) -> Option<Datatype>
    ensures { option_map datatype_view result ≡ named name.now }
{
    match name {
        "integer" => Some(Datatype::Integer),
        "string" => Some(Datatype::Text),
        "boolean" => Some(Datatype::Boolean(BooleanForm::Standard)),
        "date" => Some(Datatype::Date(DateForm::YearMonthDay)),
        "decimal" => Some(Datatype::Decimal),
        _ => None,
    }
}

/// Returns the name of a datatype.
pub fn datatype_name(datatype: &Datatype) -> &'static str
    ensures { result.now ≡ name_of_datatype (datatype_view datatype.now) }
{
    match datatype {
        Datatype::Integer => "integer",
        Datatype::Text => "string",
        Datatype::Boolean(_) => "boolean",
        Datatype::Date(_) => "date",
        Datatype::Decimal => "decimal",
    }
}

/// Returns in words what the cells of a datatype may be. Its format comes after them, if it has one.
pub fn accepted_cells(datatype: &Datatype) -> &'static str {
    match datatype {
        Datatype::Integer =>
            "digits with a sign or none, from -9223372036854775808 to 9223372036854775807",
        Datatype::Text => "a text",
        Datatype::Boolean(BooleanForm::Standard) => "true, false, 1 or 0",
        Datatype::Boolean(BooleanForm::Texts(_, _)) => "",
        Datatype::Date(_) => "a day of the calendar as ",
        Datatype::Decimal =>
            "digits with a sign or none and at most one point, of six decimal places at most, from -9223372036854.775808 to 9223372036854.775807",
    }
}
