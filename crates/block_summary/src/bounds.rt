//! The bounds of the numbers of a block.

/// The least of some numbers, and the greatest.
#[derive(Clone, Copy)]
pub struct Bounds {
    pub least: i64,
    pub greatest: i64,
}
