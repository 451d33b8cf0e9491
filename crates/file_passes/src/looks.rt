//! What a draft guesses of a file that is converted: what is made of it is looked at, and nothing is written.
ghost use Rattle.std.specs.Prelude.{ℕ, List, IfOk};
ghost use Rattle.schema_inference.specs.Looks.{IsLooking};

use crate::passes::{Pass, SourceFile, found_again};
use file_convert::{ConvertFault, Converted, Found};
use file_sights::{PassFault, guess_text, has_unknown_nulls};
use schema_inference::{FileGuess, Guesser, LeftOutCause, TableGuess};

/// A look at what is made of a file, or why that has no schema.
type Look = Result<FileGuess, LeftOutCause>;

/// A table that is made of a file, or why that has no schema; and all that is changed in it.
pub type Guessed = (Converted, Result<TableGuess, LeftOutCause>);

/// Gives what is made of a file to a look at it. Texts for null that a draft does not know are empty cells for the look, if there are some.
fn look_on(
    guesser: &Guesser,
    look: Look,
    out: &[u8],
    has_unknown: bool,
) -> Result<Look, ConvertFault>
    requires { IfOk look (λ look. (given : List ℕ) × IsLooking given look) }
    ensures { IfOk result (λ look. IfOk look (λ new. (given : List ℕ) × IsLooking given new)) }
{
    let look = match look {
        Ok(look) => look,
        Err(cause) => return Ok(Err(cause)),
    };
    if has_unknown {
        let bytes = guess_text(guesser.alloc, out)?;
        Ok(look.feed(guesser, bytes.as_slice())?)
    } else {
        Ok(look.feed(guesser, out)?)
    }
}

/// Ends a look.
fn end_look(guesser: &Guesser, look: Look) -> Result<Result<TableGuess, LeftOutCause>, ConvertFault>
    requires { IfOk look (λ look. (given : List ℕ) × IsLooking given look) }
{
    match look {
        Ok(look) => Ok(look.end(guesser)?),
        Err(cause) => Ok(Err(cause)),
    }
}

/// Looks at what is made of a file whose columns are found.
fn look_at(
    rt: &HostRuntime,
    source: &SourceFile<'_>,
    found: Found,
    guesser: &Guesser,
    look: FileGuess,
) -> Result<Guessed, PassFault>
    requires { (given : List ℕ) × IsLooking given look }
{
    let has_unknown = has_unknown_nulls(found.columns.as_slice());
    let mut pass = Pass::start(rt, source, found)?;
    let mut look = Ok(look);
    for _piece in 0..u64::MAX {
        if !pass.next()? {
            break;
        }
        look = look_on(guesser, look, pass.out.as_slice(), has_unknown)?;
    }
    let (converted, rest) = pass.end()?;
    let look = look_on(guesser, look, rest.as_slice(), has_unknown)?;
    Ok((converted, end_look(guesser, look)?))
}

/// Looks at what is made of a file whose columns are found, for the first time.
pub fn look_first(
    rt: &HostRuntime,
    source: &SourceFile<'_>,
    found: Found,
    guesser: &Guesser,
) -> Result<Guessed, PassFault> {
    look_at(rt, source, found, guesser, FileGuess::start(rt.alloc()))
}

/// Looks again at what is made of a file, if there is more to see.
pub fn look_again(
    rt: &HostRuntime,
    source: &SourceFile<'_>,
    looked: Guessed,
    guesser: &Guesser,
) -> Result<Guessed, PassFault> {
    match looked {
        (converted, Ok(table)) if table.is_open() => {
            let look = FileGuess::again(rt.alloc(), table);
            look_at(rt, source, found_again(converted), guesser, look)
        }
        looked => Ok(looked),
    }
}
