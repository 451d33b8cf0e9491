//! The laws of the texts of values: each function is a theorem, and does nothing.
ghost use Rattle.reply_values.specs.ReadBack.{ValuesReadBack};

/// The text of a value in JSON is that of one value of JSON, and its text in CSV is a field.
pub fn values_read_back()
    ensures { ValuesReadBack }
{}
