//! Bodies that are written piece by piece, within room that was reserved.
ghost use Rattle.std.specs.Prelude.{◌≡◌, ◌+◌, ◌++◌, ◌==◌, ◌<◌, ◌≤◌, IfOk, false, length, take, true};
ghost use Rattle.std.specs.List.{concat};
ghost use Rattle.reply_text.specs.Body.{rows_text};
ghost use Rattle.reply_text.specs.Csv.{csv_text};
ghost use Rattle.reply_text.specs.Pieces.{cursor_pieces, IsAt};
ghost use Rattle.reply_text.specs.Pieces.{body_pieces, body_text, IsNearLongest};
ghost use Rattle.reply_text.specs.RowSizes.{HaveCsvSizes, HaveJsonSizes, HaveSizes};

use crate::opening::{heads_of, push_opening};
use crate::pieces::{Pieces, RowPieces};
use crate::row_sizes::RowSizes;
use cell_texts::RowTurns;
use result_rows::OrderedRows;
use std::alloc::{AllocError, Global};
use std::marker::Model;

/// A body of which some pieces were written. It is seen as the bytes that are left, and a number of bytes that no piece passes.
#[derive(Drop)]
pub struct BodyCursor {
    pieces: Pieces,
    /// The number of the next piece.
    next: usize,
    /// How many bytes are left.
    size: usize,
    longest: usize,
}

impl Model for BodyCursor {
    ghost use Rattle.reply_text.specs.Waiting.{BodyRest};

    ghost Value = { BodyRest };

    ghost use Rattle.reply_text.specs.Pieces.{rest_view, IsAtPiece};

    ghost view = { rest_view };

    ghost invariant = { IsAtPiece };
}

/// Returns the body of rows, of which some were counted.
fn of_rows<const JSON: bool>(
    alloc: Global,
    rows: OrderedRows,
    counted: RowSizes,
) -> Result<BodyCursor, AllocError>
    requires counted { HaveSizes JSON counted rows.rows }
    requires untaken { rows.taken ≡ 0 }
    ensures bytes { IfOk result (λ body. body.bytes ≡ body_text JSON rows.rows) }
    ensures longest { IfOk result
        (λ body. IsNearLongest (body_pieces JSON rows.rows) body.longest) }
{
    let heads = heads_of::<JSON>(alloc, rows.table().names())?;
    let mut opening = Vec::new(alloc);
    push_opening::<JSON>(&mut opening, rows.table())?;
    let sizes = counted.of_body::<JSON>(&rows, opening.len());
    if sizes.all == usize::MAX {
        return Err(AllocError);
    }
    let body = RowPieces {
        json: JSON,
        rows: RowTurns::of(rows),
        heads,
        opening,
    };
    Ok(BodyCursor {
        pieces: Pieces::Rows(body),
        next: 0,
        size: sizes.all,
        longest: sizes.longest,
    })
}

impl BodyCursor {
    /// Returns rows, of which some were counted, as a JSON object whose member `value` has an object for each row (OData 4.01 JSON Format, section 13): what
    /// comes before the rows, each row, what comes after them. At an `Err` memory ran out, or the number of bytes has more than 64 bits.
    pub fn json_counted(
        alloc: Global,
        rows: OrderedRows,
        counted: RowSizes,
    ) -> Result<BodyCursor, AllocError>
        requires counted { HaveJsonSizes counted rows.rows }
        requires untaken { rows.taken ≡ 0 }
        ensures bytes { IfOk result (λ body. body.bytes ≡ rows_text rows.rows) }
        ensures longest { IfOk result
            (λ body. IsNearLongest (body_pieces true rows.rows) body.longest) }
    {
        of_rows::<true>(alloc, rows, counted)
    }

    /// Returns rows, of which some were counted, as CSV: the line of the names, and a line for each row. At an `Err` memory ran out, or the number of bytes has more
    /// than 64 bits.
    pub fn csv_counted(
        alloc: Global,
        rows: OrderedRows,
        counted: RowSizes,
    ) -> Result<BodyCursor, AllocError>
        requires counted { HaveCsvSizes counted rows.rows }
        requires untaken { rows.taken ≡ 0 }
        ensures bytes { IfOk result (λ body. body.bytes ≡ csv_text rows.rows) }
        ensures longest { IfOk result
            (λ body. IsNearLongest (body_pieces false rows.rows) body.longest) }
    {
        of_rows::<false>(alloc, rows, counted)
    }

    /// Returns bytes that are there, as one piece.
    pub fn of_bytes(bytes: Vec<u8>) -> BodyCursor
        ensures bytes { result.bytes ≡ bytes.items }
        ensures longest { result.longest ≡ length bytes.items }
    {
        let size = bytes.len();
        BodyCursor {
            pieces: Pieces::Bytes(bytes),
            next: 0,
            size,
            longest: size,
        }
    }

    /// Returns how many bytes are left.
    pub fn size(&self) -> usize
        ensures { result ≡ length self.now.bytes }
    {
        self.size
    }

    /// Returns true if no byte is left.
    pub fn is_empty(&self) -> bool
        ensures { result ≡ (length self.now.bytes == 0) }
    {
        self.size == 0
    }

    /// Returns a number of bytes that no piece passes.
    pub fn longest(&self) -> usize
        ensures { result ≡ self.now.longest }
    {
        self.longest
    }

    /// Writes the next piece, within room that is there, and returns where it ends. It takes no memory.
    pub fn put_next(&mut self, out: &mut [u8], at: usize) -> usize
        requires { at + self.old.longest ≤ length out.old }
        ensures long { length out.new ≡ length out.old }
        ensures longest { self.new.longest ≡ self.old.longest }
        ensures bytes { take result out.new ++ self.new.bytes ≡ take at out.old ++ self.old.bytes }
        ensures end { result + length self.new.bytes ≡ at + length self.old.bytes }
        ensures within { result ≤ at + self.old.longest }
        ensures some { 0 < length self.old.bytes → at < result }
    {
        if self.size == 0 {
            return at;
        }
        let end = self.pieces.put(out, at, self.next);
        self.size -= end - at;
        self.next += 1;
        end
    }
}
