//! Rows in JSON or in CSV, appended to one buffer.
ghost use Rattle.std.specs.Prelude.{◌≡◌, ◌<◌, ◌≤◌, ◌++◌, [], IfNone, IfOk, IfSome, OnOk, get_or, length, take, vec_len};
ghost use Rattle.std.specs.List.{concat};
ghost use Rattle.reply_text.specs.Pieces.{AreHeads};
ghost use Rattle.reply_text.specs.Pieces.{body_text, row_piece, row_pieces};
ghost use Rattle.reply_text.specs.RowSizes.{IsRowFrame};

use crate::opening::{heads_of, push_opening};
use crate::put_rows::{put_comma, put_row};
use crate::row_sizes::row_frame;
use cell_texts::row_room;
use result_rows::Rows;
use std::alloc::{AllocError, Global};

/// Appends the row with a number, after its comma.
fn push_row<const JSON: bool>(
    out: &mut Vec<u8>,
    rows: &Rows,
    row: usize,
    heads: &[Vec<u8>],
    frame: usize,
) -> Result<(), AllocError>
    requires row { row < length rows.now.rows }
    requires heads { AreHeads JSON rows.now.names heads.now }
    requires frame { IsRowFrame JSON rows.now.names (length rows.now.names) frame }
    ensures { OnOk result (out.new.items
        ≡ out.old.items ++ row_piece JSON rows.now.names row (get_or rows.now.rows row [])) }
{
    let _width = rows.width(); // that of each row
    let at = out.len();
    let room = row_room::<JSON>(rows.columns(), row, frame);
    out.resize(at.saturating_add(room), 0)?;
    let start = put_comma::<JSON>(out.as_mut_slice(), at, row);
    let end = put_row::<JSON>(out.as_mut_slice(), start, rows, row, heads);
    out.truncate(end);
    Ok(())
}

/// Appends rows, until there are more than `most` bytes. Returns how many rows it appended.
pub fn push_rows<const JSON: bool>(
    out: &mut Vec<u8>,
    rows: &Rows,
    most: usize,
) -> Result<usize, AllocError>
    ensures bytes { IfOk result (λ count. out.new.items ≡ out.old.items
        ++ concat (take count (row_pieces JSON rows.now.names rows.now.rows))) }
    ensures all { IfOk result (λ count. vec_len out.new ≤ most
        → length rows.now.rows ≤ count) }
{
    let heads = heads_of::<JSON>(*out.allocator(), rows.names())?;
    let frame = row_frame::<JSON>(rows.names(), rows.width());
    for row in 0..rows.len() {
        if out.len() > most {
            return Ok(row);
        }
        push_row::<JSON>(out, rows, row, heads.as_slice(), frame)?;
    }
    Ok(rows.len())
}

/// Returns the body of rows, or `None` if that has more than `most` bytes.
pub fn short_body<const JSON: bool>(
    alloc: Global,
    rows: &Rows,
    most: usize,
) -> Result<Option<Vec<u8>>, AllocError>
    ensures body { IfOk result
        (λ body. IfSome body (λ bytes. bytes.items ≡ body_text JSON rows.now)) }
    ensures long { IfOk result (λ body. IfNone body (most < length (body_text JSON rows.now))) }
{
    let mut body = Vec::new(alloc);
    push_opening::<JSON>(&mut body, rows)?;
    if push_rows::<JSON>(&mut body, rows, most)? < rows.len() {
        return Ok(None);
    }
    if JSON {
        body.extend_from_slice(b"]}")?;
    }
    Ok(Some(body))
}
