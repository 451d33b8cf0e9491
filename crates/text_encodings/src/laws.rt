//! The law of the definitions of encodings: a theorem, which does nothing.
ghost use Rattle.text_encodings.specs.Worked.{WorkedEncodings};

/// States bytes with their texts, worked out by hand.
pub fn worked_encodings()
    ensures { WorkedEncodings }
{}
