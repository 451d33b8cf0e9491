//! The columns of tables.
ghost use Rattle.std.specs.Prelude.{◌≡◌};
ghost use Rattle.cell_types.specs.Column.{column_view, takes_all_texts as takes_all_texts_of};

use crate::datatype::Datatype;

/// A column (Metadata Vocabulary for Tabular Data, section 5.6) and what it inherits (section 5.7).
#[derive(Drop)]
pub struct Column {
    /// The name of its values in a reply, 1 to 128 characters.
    pub name: String,
    /// The other texts that its header cell may be.
    pub titles: Vec<String>,
    pub datatype: Datatype,
    /// The texts that stand for null.
    pub nulls: Vec<String>,
    /// What an empty text stands for.
    pub default: String,
    /// Whether a null is refused.
    pub required: bool,
}

impl Column {
    /// Returns true if each text has a value in the column: texts are read as they stand, and may be null.
    #[inline(always)]
    pub fn takes_all_texts(&self) -> bool
        ensures { result ≡ takes_all_texts_of (column_view self.now) }
    {
        matches!(self.datatype, Datatype::Text) && !self.required
    }
}
