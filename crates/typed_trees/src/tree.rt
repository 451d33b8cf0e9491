//! Typed expressions. The types are in layers: dates and texts know no other, numbers know them, and truths know all. A column is its
//! number, counted from 0; where a row has no value of the type there, it is null.

use crate::operator::ArithmeticOperator;
use cell_types::{ComparisonOperator, NumberKind};
use jiff_core::civil::Date;

/// How many millionths a whole is. A decimal is a number of millionths.
pub const MILLIONTHS: u128 = 1_000_000;

/// A date or null.
#[derive(Clone, Copy)]
pub enum DateExpr {
    Null,
    Column(usize),
    Literal(Date),
}

/// A text or null.
#[derive(Drop)]
pub enum TextExpr {
    Null,
    Column(usize),
    Literal(String),
    Concat(Box<TextExpr>, Box<TextExpr>),
}

/// What `year`, `month` and `day` give of a date (OData 4.01 URL Conventions, section 5.1.1.8).
#[derive(Clone, Copy)]
pub enum DatePart {
    Year,
    Month,
    Day,
}

/// A number or null. Both sides of an operator or a comparison stand for values of the same kind.
#[derive(Drop)]
pub enum NumberExpr {
    Null,
    Column(NumberKind, usize),
    Literal(i128),
    Negate(Box<NumberExpr>),
    Arithmetic(ArithmeticOperator, Box<NumberExpr>, Box<NumberExpr>),
    /// How many characters a text has.
    Length(Box<TextExpr>),
    /// Where the second text begins in the first, in characters from 0; -1 if it is no part of it.
    IndexOf(Box<TextExpr>, Box<TextExpr>),
    PartOf(DatePart, DateExpr),
    /// An integer as a decimal.
    Scaled(Box<NumberExpr>),
}

/// `contains`, `startswith` and `endswith` (OData 4.01 URL Conventions, section 5.1.1.5).
#[derive(Clone, Copy)]
pub enum TextTest {
    Contains,
    StartsWith,
    EndsWith,
}

/// True, false or null. In a list the items are values, or none for null.
#[derive(Drop)]
pub enum TruthExpr {
    Null,
    Column(usize),
    Literal(bool),
    Not(Box<TruthExpr>),
    And(Box<TruthExpr>, Box<TruthExpr>),
    Or(Box<TruthExpr>, Box<TruthExpr>),
    CompareNumbers(ComparisonOperator, Box<NumberExpr>, Box<NumberExpr>),
    CompareTexts(ComparisonOperator, Box<TextExpr>, Box<TextExpr>),
    CompareTruths(ComparisonOperator, Box<TruthExpr>, Box<TruthExpr>),
    NumberIn(Box<NumberExpr>, Vec<Option<i128>>),
    TextIn(Box<TextExpr>, Vec<Option<String>>),
    TruthIn(Box<TruthExpr>, Vec<Option<bool>>),
    TestText(TextTest, Box<TextExpr>, Box<TextExpr>),
}

/// An expression of any type. Beside a number stands its bound: no value of it is greater in size.
#[derive(Drop)]
pub enum TypedExpr {
    Null,
    Integer(Box<NumberExpr>, u128),
    Text(Box<TextExpr>),
    Boolean(Box<TruthExpr>),
    Date(DateExpr),
    Decimal(Box<NumberExpr>, u128),
}
