//! The laws of the names and formats of datatypes: each function is a theorem, and does nothing.
ghost use Rattle.datatype_texts.specs.Laws.{ReadBack, WorkedDatatypes};

/// What a name and a format say is said again by the name and the format of that datatype.
pub fn texts_of_datatypes_read_back()
    ensures { ReadBack }
{}

/// States datatypes with their names and formats, worked out by hand.
pub fn worked_datatypes()
    ensures { WorkedDatatypes }
{}
