//! Texts on the rows of a block.

ghost use Rattle.std.specs.Prelude.{◌≡◌, ◌<◌, ℕ, option_map};
ghost use Rattle.text_kernels.specs.Texts.{text_lane, AreTextsLong};

use text_columns::TextColumn;

/// A text or null for each row of a block.
#[derive(Clone, Copy)]
pub enum Texts<'a> {
    /// Null on each row.
    Null,
    /// The same text on each row.
    Same(&'a str),
    /// The texts of a column and its nulls.
    Cells(&'a TextColumn<'a>),
    /// The texts of some rows of a column and their nulls.
    Rows(&'a TextColumn<'a>, &'a [usize]),
}

impl<'a> Texts<'a> {
    /// Returns the text of a row.
    #[inline(always)]
    pub(crate) fn at(self, row: usize) -> Option<&'a str>
        requires { (rows : ℕ) × (row < rows) × AreTextsLong rows self }
        ensures { option_map (λ t. t.now) result ≡ text_lane self.entry row }
    {
        match self {
            Texts::Null => None,
            Texts::Same(text) => Some(text),
            Texts::Cells(texts) => texts.text(row),
            Texts::Rows(texts, rows) => texts.text(rows[row]),
        }
    }
}
