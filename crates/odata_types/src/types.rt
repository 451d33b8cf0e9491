//! Types, and the columns that an expression may name.

use cell_types::ColumnKind;

/// The greatest size that a number may grow to: 2 to the 126.
pub const MOST_SIZE: u128 = 85_070_591_730_234_615_865_843_651_857_942_052_864;

/// The bound of a table's numbers, which have 64 signed bits: 2 to the 63.
pub const COLUMN_SIZE: u128 = 9_223_372_036_854_775_808;

/// The bound of what `length`, `indexof`, `year`, `month` and `day` give: 2 to the 40. No text has more bytes.
pub const FUNCTION_SIZE: u128 = 1_099_511_627_776;

/// The kind of a column's values, and the greatest size of its numbers: of decimals in millionths, of texts, booleans and dates any.
#[derive(Clone, Copy)]
pub struct ColumnType {
    pub kind: ColumnKind,
    pub size: u128,
}

/// A column that an expression may name.
#[derive(Clone, Copy)]
pub struct InputColumn<'a> {
    pub name: &'a str,
    pub column_type: ColumnType,
}

/// The type of an expression. That of the literal `null` fits wherever a type is asked for.
#[derive(Clone, Copy)]
pub enum ExprType {
    Null,
    Integer,
    Text,
    Boolean,
    Date,
    Decimal,
}
