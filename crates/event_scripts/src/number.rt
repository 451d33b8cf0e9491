//! The numbers of commands.
ghost use Rattle.std.specs.Prelude.{ℕ, MatchOption};
ghost use Rattle.event_scripts.specs.Command.{IsNumber};

/// The greatest number that a command may have, of a place or of bytes.
pub const MOST_NUMBER: u32 = 65_536;

/// Returns the number that a text writes: one or more digits, and at most [`MOST_NUMBER`].
pub(crate) fn read_number(text: &[u8]) -> Option<u32>
    ensures { MatchOption result ((n : ℕ) → ¬ (IsNumber text.now n)) (IsNumber text.now) }
{
    if text.is_empty() {
        return None;
    }
    let mut number: u32 = 0;
    for digit in text {
        if !digit.is_ascii_digit() {
            return None;
        }
        number = number * 10 + u32::from(*digit - b'0');
        if number > MOST_NUMBER {
            return None;
        }
    }
    Some(number)
}
