//! What the files of a folder look like, each read in pieces.
ghost use Rattle.std.specs.Prelude.{ℕ, List};
ghost use Rattle.schema_inference.specs.Looks.{IsLooking};

use crate::folder::path_in;
use csvw_meta::{Limits, MOST_FILE_BYTES, is_table_url};
use schema_inference::{Aims, FileGuess, Guess, Guesser, LeftOut, LeftOutCause, TableGuess};
use served_folders::{is_too_large, open_plain, read_piece};
use std::io::{self, Read};

/// Gives a file that was opened to a look at it. Returns the table that it is, or why it has no schema.
fn look_at<F: Read + Drop>(
    guesser: &Guesser,
    mut file: F,
    look: FileGuess,
) -> io::Result<Result<TableGuess, LeftOutCause>>
    requires { (given : List ℕ) × IsLooking given look }
{
    let mut look = look;
    let mut piece = Vec::new(guesser.alloc);
    for _piece in 0..=MOST_FILE_BYTES {
        piece.clear();
        if !read_piece(&mut file, &mut piece)? {
            return Ok(look.end(guesser)?);
        }
        match look.feed(guesser, piece.as_slice())? {
            Ok(on) => look = on,
            Err(cause) => return Ok(Err(cause)),
        }
    }
    Ok(Err(LeftOutCause::TooLarge))
}

/// Opens the plain file at a path, and looks at it.
fn look_into(
    rt: &HostRuntime,
    guesser: &Guesser,
    path: &str,
    look: FileGuess,
) -> io::Result<Result<TableGuess, LeftOutCause>>
    requires { (given : List ℕ) × IsLooking given look }
{
    let (file, length) = open_plain(rt, path, true)?;
    if is_too_large(length) {
        return Ok(Err(LeftOutCause::TooLarge));
    }
    look_at(guesser, file, look)
}

/// Looks at the file of a name in a folder, and again if there is more to see.
fn look_twice(
    rt: &HostRuntime,
    guesser: &Guesser,
    folder: &str,
    name: &str,
) -> io::Result<Result<TableGuess, LeftOutCause>> {
    if !is_table_url(name) {
        return Ok(Err(LeftOutCause::NotUrl));
    }
    let path = path_in(rt.alloc(), folder, name)?;
    match look_into(rt, guesser, path.as_str(), FileGuess::start(rt.alloc()))? {
        Ok(table) if table.is_open() => {
            let again = FileGuess::again(rt.alloc(), table);
            look_into(rt, guesser, path.as_str(), again)
        }
        looked => Ok(looked),
    }
}

/// Returns what the files of these names in a folder look like.
pub fn guess_files(
    rt: &HostRuntime,
    folder: &str,
    names: &[String],
    keys: bool,
) -> io::Result<Guess> {
    let limits = Limits::greatest();
    let mut guesser = Guesser::new(rt.alloc(), Aims { limits, keys })?;
    let mut schemas = Vec::new(rt.alloc());
    let mut left_out = Vec::new(rt.alloc());
    for (file, name) in names.iter().enumerate() {
        match look_twice(rt, &guesser, folder, name.as_str())? {
            Ok(table) => schemas.push(guesser.schema_of(file, name.as_str(), table)?)?,
            Err(cause) => left_out.push(LeftOut { file, cause })?,
        }
    }
    Ok(guesser.end(schemas, left_out)?)
}
