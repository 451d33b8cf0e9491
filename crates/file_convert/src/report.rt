//! What is changed in a file, and what is proposed.
use text_encodings::Encoding;
use value_forms::Form;

/// What is found in a column.
#[derive(Clone, Copy)]
pub enum ReportKind {
    /// Its cells are of this form.
    Form(Form<'static>),
    /// Nothing but texts.
    Text,
    /// Numbers that may have a decimal point or a decimal comma.
    TwoPoints,
    /// Days that may come first, or months.
    TwoOrders,
    /// Empty cells under an empty name at the right.
    Empty,
}

/// A column of a file, and what is changed in it.
#[derive(Drop)]
pub struct ColumnReport {
    /// Its header cell.
    pub title: Vec<u8>,
    pub kind: ReportKind,
    /// How many cells are changed, the line of the first of them, what it was and what it is.
    pub changed: usize,
    pub line: usize,
    pub before: Vec<u8>,
    pub after: Vec<u8>,
    /// How many cells have more than six decimal places, the line of the first, and the greatest difference by which they are rounded, in billionths of a millionth.
    pub fine: usize,
    pub fine_line: usize,
    pub difference: u64,
    /// They are rounded.
    pub rounds: bool,
    /// How many cells are each text of [`NULLS`](crate::NULLS).
    pub nulls: Vec<usize>,
    /// A text that stands for null because this was asked, and how many cells it is.
    pub asked_null: Option<Vec<u8>>,
    pub asked_cells: usize,
    /// Its cells are texts, whatever they look like.
    pub is_text: bool,
    /// The number of its first column in what is written.
    pub place: usize,
}

/// What is found in a file before it is written.
#[derive(Drop)]
pub struct Found {
    pub encoding: Encoding,
    pub separator: u8,
    /// Its columns, in which nothing is changed yet.
    pub columns: Vec<ColumnReport>,
    pub counts: Counts,
}

/// How many rows there are, how many empty lines, and how many rows with fewer cells than the header.
#[derive(Clone, Copy)]
pub struct Counts {
    pub rows: usize,
    pub blank: usize,
    pub short: usize,
}

/// A file that is converted.
#[derive(Drop)]
pub struct Converted {
    pub encoding: Encoding,
    pub separator: u8,
    /// How many lines before the header are left out.
    pub skipped: usize,
    /// How many line breaks are a CR alone.
    pub returns: usize,
    /// Empty lines are left out, and short rows get empty cells.
    pub counts: Counts,
    pub columns: Vec<ColumnReport>,
}
