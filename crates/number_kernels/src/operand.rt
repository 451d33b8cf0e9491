//! The numbers that an operator joins.

ghost use Rattle.std.specs.Prelude.{◌≡◌, ◌<◌, ℕ};
ghost use Rattle.number_kernels.specs.Operands.{null_at, lane_value, IsLong};

/// A number or null for each row.
#[derive(Clone, Copy)]
pub enum Operand<'v> {
    Null,
    Same(i64),
    Each(&'v [i64], &'v [bool]),
}

impl<'v> Operand<'v> {
    #[inline(always)]
    pub fn is_null(self, row: usize) -> bool
        requires { (rows : ℕ) × (row < rows) × IsLong rows self }
        ensures { result ≡ null_at self.entry row }
    {
        match self {
            Operand::Null => true,
            Operand::Same(_) => false,
            Operand::Each(_, nulls) => nulls[row],
        }
    }

    /// Returns the number; of a null, any.
    #[inline(always)]
    pub fn value(self, row: usize) -> i64
        requires { (rows : ℕ) × (row < rows) × IsLong rows self }
        ensures { result ≡ lane_value self.entry row }
    {
        match self {
            Operand::Null => 0,
            Operand::Same(number) => number,
            Operand::Each(values, _) => values[row],
        }
    }
}
