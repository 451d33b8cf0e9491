//! What a line says.
ghost use Rattle.std.specs.Prelude.{◌≡◌};
ghost use Rattle.event_scripts.specs.Laws.{OneCommand, EscapesReadBack};

use crate::number::MOST_NUMBER;

/// The greatest number that a command may have.
pub fn limits()
    ensures { MOST_NUMBER ≡ 65_536 }
{}

/// A line is at most one command.
pub fn one_command()
    ensures { OneCommand }
{}

/// What is written for bytes stands for these bytes.
pub fn reads_back()
    ensures { EscapesReadBack }
{}
