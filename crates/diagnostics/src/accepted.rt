//! What would be accepted in the place of what is refused.
use crate::line::Line;
use cell_types::{CellFault, Column};
use csv_index::TextFault;
use csvw_meta::MetaFault;
use datatype_texts::{DatatypeFormat, accepted_cells, format_of};

/// Returns what metadata may have there.
pub fn accepted_metadata(fault: &MetaFault) -> &'static str {
    match fault {
        MetaFault::NotJson => "a JSON text in UTF-8",
        MetaFault::NotObject => "an object",
        MetaFault::NoTables =>
            "`tables` with a table for each file, or `url` and `tableSchema` of one",
        MetaFault::TooManyTables => "at most 256 tables",
        MetaFault::BadUrl =>
            "a letter, then letters, digits, `_` and `-`, then `.csv`, of at most 132 characters",
        MetaFault::DuplicateUrl => "a url that no earlier table has",
        MetaFault::Unsupported { key } => accepted_in_place(key.as_str()),
        MetaFault::NoColumns => "an object with `columns`, an array of at least one column",
        MetaFault::TooManyColumns => "at most 256 columns",
        MetaFault::BadName =>
            "a letter, then letters, digits and `_`, of at most 128 characters; another text is one of `titles`",
        MetaFault::DuplicateName => "a name that no earlier column has",
        MetaFault::BadDatatype => "a name, or an object with `base` and `format`",
        MetaFault::BadFormat =>
            "of a boolean `T|F`, as Y|N; of a date yyyy-MM-dd, yyyyMMdd, dd/MM/yyyy, MM/dd/yyyy or dd.MM.yyyy",
        MetaFault::BadNull => "a text or an array of texts",
        MetaFault::BadDefault => "a text",
        MetaFault::BadRequired => "true or false",
        MetaFault::BadTitles => "a text, an array of texts, or an object of such by language",
        MetaFault::BadKey => "the name of a column, or an array of different ones",
        MetaFault::NoMemory => "more memory",
    }
}

/// What may stand in the place of members that are not served.
const IN_PLACE: &[(&str, &str)] = &[
    ("name", "a column with a name"),
    ("tableSchema", "the schema itself, and no url of it"),
    ("virtual", "columns of the file alone"),
    ("format", "a format of a boolean or of a date"),
    ("dialect", "metadata without it"),
    ("transformations", "metadata without it"),
    ("separator", "metadata without it"),
    ("length", "a datatype without it"),
    ("minLength", "a datatype without it"),
    ("maxLength", "a datatype without it"),
    ("minimum", "a datatype without it"),
    ("maximum", "a datatype without it"),
    ("minInclusive", "a datatype without it"),
    ("maxInclusive", "a datatype without it"),
    ("minExclusive", "a datatype without it"),
    ("maxExclusive", "a datatype without it"),
];

/// Returns what may stand in the place of a member or a datatype that is not served.
fn accepted_in_place(key: &str) -> &'static str {
    for (name, accepted) in IN_PLACE {
        if *name == key {
            return *accepted;
        }
    }
    "integer, decimal, boolean, date or string"
}

/// Returns the place in a file that a fault names, or its begin.
pub fn place_of(fault: TextFault) -> usize {
    match fault {
        TextFault::NotUtf8 { at }
        | TextFault::BareCr { at }
        | TextFault::StrayQuote { at }
        | TextFault::AfterQuote { at }
        | TextFault::Unfinished { at } => at,
        TextFault::NoHeader | TextFault::Width { .. } | TextFault::NoMemory => 0,
    }
}

/// Returns what a file may have there.
pub fn accepted_file(fault: TextFault) -> &'static str {
    match fault {
        TextFault::NotUtf8 { .. } => "UTF-8",
        TextFault::BareCr { .. } => "a line feed after a carriage return",
        TextFault::StrayQuote { .. } =>
            "a double quote as the first of a field, and each one inside such a field twice",
        TextFault::AfterQuote { .. } =>
            "after a closing double quote a comma or the end of the line; a double quote inside stands twice",
        TextFault::Unfinished { .. } =>
            "a closing double quote, and a line feed after a carriage return",
        TextFault::NoHeader => "a header line",
        TextFault::Width { .. } => "as many fields as the header has",
        TextFault::NoMemory => "more memory",
    }
}

/// Appends what a cell of a column may be, if it has no value for that fault.
pub fn push_accepted_cell(line: &mut Line, column: &Column, fault: CellFault) {
    if matches!(fault, CellFault::Missing) {
        return line.push("a value, which the column requires");
    }
    line.push(accepted_cells(&column.datatype));
    match format_of(&column.datatype) {
        DatatypeFormat::Absent => {}
        DatatypeFormat::Pattern(pattern) => line.push(pattern),
        DatatypeFormat::Texts(of_true, of_false) => {
            line.push_quoted(of_true);
            line.push(" or ");
            line.push_quoted(of_false);
        }
    }
}
