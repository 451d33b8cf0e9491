//! What is known of the first lines of a file, and the fault of the file with more of them.
ghost use Rattle.std.specs.Prelude.{◌≡◌, ◌≤◌, ◌+◌, ◌++◌, ℕ, List, IfSome, length};
ghost use Rattle.csv_grammar.specs.Files.{IsFileFault};
ghost use Rattle.csv_index.specs.Fault.{text_cause};
ghost use Rattle.csv_windows.specs.Windows.{line_width, malformed_in, most_bytes, moved_cause, FollowsFault, IsOfText, IsPastLine, MayLast};

use csv_grammar::in_windows;
use csv_index::TextFault;

/// How many fields each record of a table has, and how many rows it has.
#[derive(Clone, Copy)]
pub struct TableSize {
    pub width: usize,
    pub rows: usize,
}

/// What the first lines of a file are.
#[derive(Clone, Copy)]
pub enum FirstLines {
    /// None of them is read.
    Nothing,
    Table(TableSize),
    /// No table. More lines do not take this fault away, but bytes that are not UTF-8 come before it, and a text that is no records before a row of another width.
    Faulty(TextFault),
}

/// Returns the same fault of the file: of the bytes that were read, the first `line` are a line of empty fields, and `front` bytes of the file are before the others.
fn moved(fault: TextFault, line: usize, front: usize) -> TextFault
    requires past { IsPastLine line (text_cause fault) }
    requires room { front ≤ most_bytes }
    ensures { text_cause result ≡ moved_cause line front (text_cause fault) }
{
    match fault {
        TextFault::NotUtf8 { at } => TextFault::NotUtf8 {
            at: front + (at - line),
        },
        TextFault::BareCr { at } => TextFault::BareCr {
            at: front + (at - line),
        },
        TextFault::StrayQuote { at } => TextFault::StrayQuote {
            at: front + (at - line),
        },
        TextFault::AfterQuote { at } => TextFault::AfterQuote {
            at: front + (at - line),
        },
        TextFault::Unfinished { at } => TextFault::Unfinished {
            at: front + (at - line),
        },
        other => other,
    }
}

impl FirstLines {
    /// Returns how many empty fields the line before the next ones has.
    pub fn line_width(self) -> usize
        ensures { result ≡ line_width self }
    {
        match self {
            FirstLines::Nothing => 0,
            FirstLines::Table(size) => size.width,
            FirstLines::Faulty(_) => 1,
        }
    }

    /// Returns the fault of the first lines with more of them, or with the rest of a file, if `row` of these is the first of another width.
    fn uneven(self, row: usize) -> TextFault
        requires { (front : List ℕ) × (piece : List ℕ)
            × FollowsFault front piece self (TextFault.Width row) }
        ensures is { (front : List ℕ) (piece : List ℕ)
            → FollowsFault front piece self (TextFault.Width row)
            → IfSome (text_cause result) (IsFileFault (front ++ piece)) }
        ensures lasts { (front : List ℕ) (piece : List ℕ)
            → FollowsFault front piece self (TextFault.Width row)
            → MayLast (text_cause result) }
    {
        in_windows();
        match self {
            FirstLines::Nothing => TextFault::Width { row },
            FirstLines::Table(size) => TextFault::Width {
                row: size.rows + row,
            },
            FirstLines::Faulty(first) => first,
        }
    }

    /// Returns the fault of first lines that are no records.
    fn malformed(self) -> Option<TextFault>
        ensures { result ≡ malformed_in self }
    {
        match self {
            FirstLines::Faulty(TextFault::Width { .. }) => None,
            FirstLines::Faulty(fault) => Some(fault),
            _ => None,
        }
    }

    /// Returns the fault of the first lines, which are `front` bytes, with more of them, or with the rest of a file, if these are no records.
    fn text_fault(self, fault: TextFault, front: usize) -> TextFault
        requires text { IsOfText (text_cause fault) }
        requires follows { (bytes : List ℕ) × (piece : List ℕ)
            × (front ≡ length bytes) × FollowsFault bytes piece self fault }
        ensures is { (bytes : List ℕ) (piece : List ℕ)
            → front ≡ length bytes → FollowsFault bytes piece self fault
            → IfSome (text_cause result) (IsFileFault (bytes ++ piece)) }
        ensures lasts { (bytes : List ℕ) (piece : List ℕ)
            → front ≡ length bytes → FollowsFault bytes piece self fault
            → MayLast (text_cause fault) → MayLast (text_cause result) }
    {
        in_windows();
        match self.malformed() {
            Some(first) => first,
            None => moved(fault, self.line_width(), front),
        }
    }

    /// Returns the fault of the first lines, which are `front` bytes, with more of them, or with the rest of a file. These have that one after a line of empty fields.
    pub fn fault(self, fault: TextFault, front: usize) -> TextFault
        requires { (bytes : List ℕ) × (piece : List ℕ)
            × (front ≡ length bytes) × FollowsFault bytes piece self fault }
        ensures is { (bytes : List ℕ) (piece : List ℕ)
            → front ≡ length bytes → FollowsFault bytes piece self fault
            → IfSome (text_cause result) (IsFileFault (bytes ++ piece)) }

        // It lasts if that one does.
        ensures lasts { (bytes : List ℕ) (piece : List ℕ)
            → front ≡ length bytes → FollowsFault bytes piece self fault
            → MayLast (text_cause fault) → MayLast (text_cause result) }
    {
        in_windows();
        match fault {
            TextFault::NoMemory => TextFault::NoMemory,
            TextFault::NotUtf8 { .. } => moved(fault, self.line_width(), front),
            TextFault::Width { row } => self.uneven(row),
            _ => self.text_fault(fault, front),
        }
    }
}
