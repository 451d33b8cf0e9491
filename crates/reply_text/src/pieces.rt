//! The pieces of a body, by their numbers.
ghost use Rattle.std.specs.Prelude.{◌≡◌, ◌+◌, [], ◌<◌, ◌≤◌, get_or, length};
ghost use Rattle.reply_text.specs.Pieces.{cursor_pieces, AreRowsAt, IsAt, WritesOn};
ghost use Rattle.reply_text.specs.Pieces.{body_pieces};
ghost use Rattle.reply_values.specs.Size.{IsWrittenAt};

use crate::put_rows::{put_comma, put_row};
use cell_texts::RowTurns;
use reply_values::put_piece;

/// Rows, in JSON or in CSV.
#[derive(Drop)]
pub struct RowPieces {
    pub json: bool,
    pub rows: RowTurns,
    /// What comes before each value of a row.
    pub heads: Vec<Vec<u8>>,
    /// What comes before the rows.
    pub opening: Vec<u8>,
}

/// What a body is written from.
#[derive(Drop)]
pub enum Pieces {
    /// Rows.
    Rows(RowPieces),
    /// Bytes.
    Bytes(Vec<u8>),
}

/// Writes the piece with a number of rows, which is the next.
#[inline(always)]
fn put_rows<const JSON: bool>(
    out: &mut [u8],
    at: usize,
    body: &mut RowPieces,
    number: usize,
) -> usize
    requires format { body.old.json ≡ JSON }
    requires number { number < length (body_pieces JSON body.old.rows.rows) }
    requires next { AreRowsAt JSON body.old number }
    requires room { at + length (get_or (body_pieces JSON body.old.rows.rows) number [])
        ≤ length out.old }
    ensures put { IsWrittenAt out.old out.new at result
        (get_or (body_pieces JSON body.old.rows.rows) number []) }
    ensures same { body.new.rows.rows ≡ body.old.rows.rows }
    ensures format { body.new.json ≡ JSON }
    ensures next { AreRowsAt JSON body.new (number + 1) }
{
    if number == 0 {
        return put_piece(out, at, body.opening.as_slice());
    }
    let row = number - 1;
    if row == body.rows.len() {
        return put_piece(out, at, b"]}");
    }
    let place = body.rows.next();
    let start = put_comma::<JSON>(out, at, row);
    put_row::<JSON>(out, start, body.rows.table(), place, body.heads.as_slice())
}

impl Pieces {
    /// Writes the piece with a number, which is the next, and returns where it ends.
    pub fn put(&mut self, out: &mut [u8], at: usize, number: usize) -> usize
        requires number { number < length (cursor_pieces self.old) }
        requires next { IsAt self.old number }
        requires room { at + length (get_or (cursor_pieces self.old) number []) ≤ length out.old }
        ensures put { IsWrittenAt out.old out.new at result
            (get_or (cursor_pieces self.old) number []) }
        ensures next { WritesOn self.old self.new (number + 1) }
    {
        match self {
            Pieces::Rows(body) if body.json => put_rows::<true>(out, at, body, number),
            Pieces::Rows(body) => put_rows::<false>(out, at, body, number),
            Pieces::Bytes(bytes) => put_piece(out, at, bytes.as_slice()),
        }
    }
}
