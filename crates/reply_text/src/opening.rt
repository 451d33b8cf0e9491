//! What comes before rows, and before the values of a row, in JSON (RFC 8259) or in CSV (RFC 4180, section 2).
ghost use Rattle.std.specs.Prelude.{◌≡◌, ◌++◌, IfOk, OnOk, map, string_bytes};
ghost use Rattle.reply_text.specs.Csv.{csv_line};
ghost use Rattle.reply_text.specs.Json.{comma_before, json_count};
ghost use Rattle.reply_text.specs.Pieces.{opening_text};
ghost use Rattle.reply_text.specs.Pieces.{AreHeads};

use reply_values::{push_number, push_text};
use result_rows::Rows;
use std::alloc::{AllocError, Global};

/// Appends a comma before every item but the first.
pub fn push_comma(out: &mut Vec<u8>, place: usize) -> Result<(), AllocError>
    ensures { OnOk result (out.new.items ≡ out.old.items ++ comma_before place) }
{
    if place == 0 {
        Ok(())
    } else {
        out.extend_from_slice(b",")
    }
}

/// Returns what comes before each value of a row: a comma, but before the first, and in JSON the name and a colon.
pub fn heads_of<const JSON: bool>(
    alloc: Global,
    names: &[String],
) -> Result<Vec<Vec<u8>>, AllocError>
    ensures { IfOk result (λ heads. AreHeads JSON (map string_bytes names.now) heads.items) }
{
    let mut heads = Vec::with_capacity(alloc, names.len())?;
    for (place, name) in names.iter().enumerate() {
        let mut head = Vec::new(alloc);
        push_comma(&mut head, place)?;
        if JSON {
            push_text(&mut head, name.as_bytes())?;
            head.extend_from_slice(b":")?;
        }
        heads.push(head)?;
    }
    Ok(heads)
}

/// Appends the number of rows, if it was asked for.
fn push_count(out: &mut Vec<u8>, count: Option<u64>) -> Result<(), AllocError>
    ensures { OnOk result (out.new.items ≡ out.old.items ++ json_count count) }
{
    if let Some(count) = count {
        push_text(out, b"@odata.count")?;
        out.extend_from_slice(b":")?;
        push_number(out, count)?;
        out.extend_from_slice(b",")?;
    }
    Ok(())
}

/// Appends the names, with a comma between each two, and their line break.
fn push_names(out: &mut Vec<u8>, names: &[String]) -> Result<(), AllocError>
    ensures { OnOk result
        (out.new.items ≡ out.old.items ++ csv_line (map string_bytes names.now)) }
{
    for (place, name) in names.iter().enumerate() {
        push_comma(out, place)?;
        out.extend_from_slice(name.as_bytes())?;
    }
    out.extend_from_slice(b"\r\n")
}

/// Appends what comes before rows: in JSON the members of their object before `value`, and its name, in CSV the names.
pub fn push_opening<const JSON: bool>(out: &mut Vec<u8>, rows: &Rows) -> Result<(), AllocError>
    ensures { OnOk result (out.new.items ≡ out.old.items ++ opening_text JSON rows.now) }
{
    if !JSON {
        return push_names(out, rows.names());
    }
    out.extend_from_slice(b"{")?;
    push_count(out, rows.count())?;
    push_text(out, b"value")?;
    out.extend_from_slice(b":[")
}
