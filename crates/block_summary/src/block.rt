//! The blocks of a table.

ghost use Rattle.std.specs.Prelude.{◌≡◌};

/// How many rows a block of a table has; the last block has fewer if they do not fill it.
pub const BLOCK_ROWS: usize = 4096;

/// A block has 4,096 rows.
pub fn rows_of_a_block()
    ensures { BLOCK_ROWS ≡ 4_096 }
{}
