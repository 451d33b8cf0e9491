//! Rows in JSON or in CSV, written into room that is there.
ghost use Rattle.std.specs.Prelude.{◌≡◌, ◌+◌, [], ◌<◌, ◌≤◌, IsTrue, get_or, if◌then◌else◌, length, not};
ghost use Rattle.reply_text.specs.Pieces.{AreHeads};
ghost use Rattle.reply_text.specs.Json.{comma_before};
ghost use Rattle.reply_text.specs.Pieces.{printed_row};
ghost use Rattle.reply_values.specs.Size.{IsWrittenAt};

use cell_texts::put_cell;
use reply_values::{put_byte, put_piece};
use result_rows::Rows;

/// Writes a comma before every item but the first, if items have commas.
#[inline(always)]
pub(crate) fn put_comma<const COMMAS: bool>(out: &mut [u8], at: usize, place: usize) -> usize
    requires { at + length (comma_before (if COMMAS then place else 0)) ≤ length out.old }
    ensures { IsWrittenAt out.old out.new at result (comma_before (if COMMAS then place else 0)) }
{
    if !COMMAS || place == 0 {
        return at;
    }
    put_byte(out, at, b',')
}

/// Writes what comes before the value with that place in a row: in CSV its comma, which is quicker written than copied.
#[inline(always)]
fn put_head<const JSON: bool>(out: &mut [u8], at: usize, head: &[u8], col: usize) -> usize
    requires comma { IsTrue (not JSON) → head.now ≡ comma_before col }
    requires room { at + length head.now ≤ length out.old }
    ensures { IsWrittenAt out.old out.new at result head.now }
{
    if JSON {
        return put_piece(out, at, head);
    }
    put_comma::<true>(out, at, col)
}

/// Writes the row with a number.
#[inline(always)]
pub(crate) fn put_row<const JSON: bool>(
    out: &mut [u8],
    at: usize,
    rows: &Rows,
    row: usize,
    heads: &[Vec<u8>],
) -> usize
    requires row { row < length rows.now.rows }
    requires heads { AreHeads JSON rows.now.names heads.now }
    requires room { at + length (printed_row JSON rows.now.names (get_or rows.now.rows row []))
        ≤ length out.old }
    ensures { IsWrittenAt out.old out.new at result
        (printed_row JSON rows.now.names (get_or rows.now.rows row [])) }
{
    let values = rows.row_ref(row);
    let mut end = if JSON { put_byte(out, at, b'{') } else { at };
    for col in 0..rows.width() {
        end = put_head::<JSON>(out, end, heads[col].as_slice(), col);
        end = put_cell::<JSON>(out, end, &values, col);
    }
    if JSON {
        put_byte(out, end, b'}')
    } else {
        put_piece(out, end, b"\r\n")
    }
}
