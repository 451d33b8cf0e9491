//! The windows of a file: of each its whole lines are read, after the lines before them.
ghost use Rattle.std.specs.Prelude.{◌≡◌, ◌≤◌, ◌+◌, ◌++◌, ◌^◌, ℕ, List, [], IfOk, IfErr, IfSome, false, length};
ghost use Rattle.csv_grammar.specs.Files.{IsFileFault};
ghost use Rattle.csv_index.specs.Fault.{text_cause};
ghost use Rattle.csv_windows.specs.Windows.{blank_line, most_bytes, Continues, EndsInFeed, FollowsTable, HasLines, IsBeforeWindow, BeginsFile, IsPieceOf, IsLasting, IsLastingFault, IsSizeWith, MayLast, ReadsPiece};

use crate::front::{FirstLines, TableSize};
use crate::lines::lines_len;
use csv_grammar::in_windows;
use csv_index::{IndexedText, TextFault};
use std::alloc::{AllocError, Global};

/// The first lines of a file, and how many bytes they have.
#[derive(Clone, Copy)]
pub struct Front {
    pub len: usize,
    pub lines: FirstLines,
}

/// What is read of a window.
#[derive(Drop)]
pub enum Piece {
    /// Rows: those of the table, whose header is that of the file if they are the first, and else a line of empty fields.
    Rows(Front, IndexedText),
    /// Lines with which the file is no table.
    Fault(Front),
    /// Nothing: it has no whole line, or its text needs more of the file.
    Short,
}

/// Returns the bytes of a piece of a file after a line of `width` empty fields.
fn window_file(alloc: Global, width: usize, piece: &[u8]) -> Result<Vec<u8>, AllocError>
    requires { width + length piece.now ≤ 2 ^ 62 }
    ensures { IfOk result (λ file. file.items ≡ blank_line width ++ piece.now) }
{
    let mut file = Vec::with_capacity(alloc, width + piece.len())?;
    if width > 0 {
        file.resize(width - 1, b',')?;
        file.push(b'\n')?;
    }
    file.extend_from_slice(piece)?;
    Ok(file)
}

/// Returns true if more of a text may take its fault away.
fn is_open(fault: TextFault) -> bool
    ensures { result ≡ false → MayLast (text_cause fault) }
{
    match fault {
        TextFault::Unfinished { .. } => true,
        TextFault::NoHeader => true,
        _ => false,
    }
}

/// Returns the first lines, which are `len` bytes, with a fault that lasts. The error is a fault that does not depend on the text: they are not UTF-8, or out of memory.
fn faulty(fault: TextFault, len: usize) -> Result<Piece, TextFault>
    ensures piece { IfOk result (λ piece. (bytes : List ℕ)
        → IfSome (text_cause fault) (IsFileFault bytes) → MayLast (text_cause fault)
        → IsLasting bytes len piece) }
    ensures fault { IfErr result (λ e. (bytes : List ℕ) (more : List ℕ)
        → IfSome (text_cause fault) (IsFileFault bytes) → EndsInFeed bytes
        → IfSome (text_cause e) (IsFileFault (bytes ++ more))) }
{
    in_windows();
    match fault {
        TextFault::NoMemory => Err(TextFault::NoMemory),
        TextFault::NotUtf8 { .. } => Err(fault),
        _ => Ok(Piece::Fault(Front {
            len,
            lines: FirstLines::Faulty(fault),
        })),
    }
}

/// Returns the size of the table that first lines are with `file`, which has more of them after a line of empty fields. The error is the fault of first lines that are no table.
fn size_with(lines: FirstLines, file: &IndexedText) -> Result<TableSize, TextFault>
    requires { (bytes : List ℕ) × (piece : List ℕ) × FollowsTable bytes piece lines file.now }
    ensures size { IfOk result (λ size. (bytes : List ℕ) (piece : List ℕ)
        → FollowsTable bytes piece lines file.now
        → IsSizeWith bytes (bytes ++ piece) lines file.now size) }
    ensures fault { IfErr result (λ e. (bytes : List ℕ) (piece : List ℕ)
        → FollowsTable bytes piece lines file.now
        → IsLastingFault (bytes ++ piece) (text_cause e)) }
{
    in_windows();
    let rows = file.rows();
    match lines {
        FirstLines::Nothing => Ok(TableSize {
            width: file.width(),
            rows,
        }),
        FirstLines::Table(first) => Ok(TableSize {
            width: first.width,
            rows: first.rows + rows,
        }),
        FirstLines::Faulty(fault) => Err(fault),
    }
}

/// Returns first lines with more of them, which are `len` bytes together: `file` has these after a line of empty fields.
fn joined(lines: FirstLines, len: usize, file: IndexedText) -> Piece
    requires { (bytes : List ℕ) × (piece : List ℕ) × FollowsTable bytes piece lines file }
    ensures { (bytes : List ℕ) (piece : List ℕ) → FollowsTable bytes piece lines file
        → IsPieceOf bytes (bytes ++ piece) lines len result }
{
    match size_with(lines, &file) {
        Ok(size) => {
            let lines = FirstLines::Table(size);
            Piece::Rows(Front { len, lines }, file)
        }
        Err(fault) => {
            let lines = FirstLines::Faulty(fault);
            Piece::Fault(Front { len, lines })
        }
    }
}

impl Front {
    /// Begins with a file, of which nothing is read.
    pub fn start() -> Front
        ensures { BeginsFile [] result }
    {
        Front {
            len: 0,
            lines: FirstLines::Nothing,
        }
    }

    /// Reads the whole lines of a window, after which the file goes on. The error is what is wrong with the file whatever follows, or out of memory.
    pub fn read(self, alloc: Global, window: &[u8]) -> Result<Piece, TextFault>
        requires { (bytes : List ℕ) × IsBeforeWindow bytes window.now self }
        ensures reads { IfOk result (λ piece. (bytes : List ℕ)
            → IsBeforeWindow bytes window.now self → ReadsPiece bytes window.now self.lines piece) }
        ensures fault { IfErr result (λ e. (bytes : List ℕ) (more : List ℕ)
            → IsBeforeWindow bytes window.now self
            → IfSome (text_cause e) (IsFileFault ((bytes ++ window.now) ++ more))) }
    {
        let cut = lines_len(window);
        if cut == 0 {
            return Ok(Piece::Short);
        }
        let Front { len, lines } = self;
        let file = window_file(alloc, lines.line_width(), &window[..cut])?;
        match IndexedText::build(alloc, file) {
            Ok(file) => Ok(joined(lines, len + cut, file)),
            Err(fault) => {
                if is_open(fault) {
                    return Ok(Piece::Short);
                }
                faulty(lines.fault(fault, len), len + cut)
            }
        }
    }

    /// Reads the rest of a file. Returns its rows and the size of the whole table, or the first thing that is wrong with the whole file.
    pub fn finish(self, alloc: Global, rest: &[u8]) -> Result<(TableSize, IndexedText), TextFault>
        requires { (bytes : List ℕ) × IsBeforeWindow bytes rest.now self }
        ensures table { IfOk result (λ read. (bytes : List ℕ) → IsBeforeWindow bytes rest.now self
            → Continues bytes (bytes ++ rest.now) self.lines read.1
            (HasLines (FirstLines.Table read.0))) }
        ensures fault { IfErr result (λ e. (bytes : List ℕ) → IsBeforeWindow bytes rest.now self
            → IfSome (text_cause e) (IsFileFault (bytes ++ rest.now))) }
    {
        let Front { len, lines } = self;
        let file = window_file(alloc, lines.line_width(), rest)?;
        match IndexedText::build(alloc, file) {
            Ok(file) => match size_with(lines, &file) {
                Ok(size) => Ok((size, file)),
                Err(first) => Err(first),
            },
            Err(fault) => Err(lines.fault(fault, len)),
        }
    }
}
