//! The trees of OData expressions and query options (OData 4.01 URL Conventions, sections 5.1.1 and 5.1.2; OData Data Aggregation
//! 4.0, section 3). Parentheses leave no node: the shape of a tree says what stands together.

pub use cell_types::ComparisonOperator;
use jiff_core::civil::Date;
pub use typed_trees::ArithmeticOperator;

/// A value written in an expression (section 5.1.1.14.1).
#[derive(Drop)]
pub enum Literal {
    Null,
    Boolean(bool),
    /// At most 38 digits, so its size is below 10 to the 38.
    Number(i128),
    /// The content, each doubled quote made one.
    Text(String),
    /// A day of the years 1 to 9999.
    Date(Date),
    /// In millionths: at most 32 digits before the point and six after it, so its size is below 10 to the 38.
    Decimal(i128),
}

/// An operator before its operand: `-` and `not` (sections 5.1.1.1.9 and 5.1.1.2.6).
#[derive(Clone, Copy, PartialEq, Eq)]
pub enum UnaryOperator {
    Negate,
    Not,
}

/// `and` and `or` (sections 5.1.1.1.7 and 5.1.1.1.8).
#[derive(Clone, Copy, PartialEq, Eq)]
pub enum LogicOperator {
    And,
    Or,
}

/// An operator between two operands.
#[derive(Clone, Copy, PartialEq, Eq)]
pub enum BinaryOperator {
    Logic(LogicOperator),
    Comparison(ComparisonOperator),
    Arithmetic(ArithmeticOperator),
}

/// A canonical function of one argument (sections 5.1.1.5 and 5.1.1.8).
#[derive(Clone, Copy, PartialEq, Eq)]
pub enum UnaryFunction {
    Length,
    Year,
    Month,
    Day,
}

/// A canonical function of two arguments (sections 5.1.1.5 and 5.1.1.7).
#[derive(Clone, Copy, PartialEq, Eq)]
pub enum BinaryFunction {
    Contains,
    StartsWith,
    EndsWith,
    IndexOf,
    Concat,
}

/// An expression (section 5.1.1).
#[derive(Drop)]
pub enum Expr {
    Literal(Literal),
    /// A column, by its name.
    Name(String),
    Unary(UnaryOperator, Box<Expr>),
    Binary(BinaryOperator, Box<Expr>, Box<Expr>),
    /// Whether a value is one of a list (section 5.1.1.1.11). The list is not empty.
    In(Box<Expr>, Vec<Literal>),
    UnaryCall(UnaryFunction, Box<Expr>),
    BinaryCall(BinaryFunction, Box<Expr>, Box<Expr>),
}

/// An item of `$orderby` (section 5.1.5): ascending without `desc`.
#[derive(Drop)]
pub struct OrderItem {
    pub expression: Expr,
    pub descending: bool,
}

/// An item of `$select` (section 5.1.4).
#[derive(Drop)]
pub enum SelectItem {
    /// `*`
    All,
    /// A column, by its name.
    Name(String),
}

/// A standard aggregation method (OData Data Aggregation, section 3.2.1.2).
#[derive(Clone, Copy, PartialEq, Eq)]
pub enum AggregationMethod {
    Sum,
    Min,
    Max,
    CountDistinct,
}

/// An item of `aggregate` (OData Data Aggregation, section 3.2.1). The alias names the column of the result.
#[derive(Drop)]
pub enum AggregateItem {
    /// `column with method as alias`
    Column {
        column: String,
        method: AggregationMethod,
        alias: String,
    },
    /// `$count as alias`
    Count {
        alias: String,
    },
}

/// A transformation of `$apply` (OData Data Aggregation, section 3.2). Its lists of names and of items are not empty.
#[derive(Drop)]
pub enum Transformation {
    Filter(Expr),
    Aggregate(Vec<AggregateItem>),
    GroupBy {
        names: Vec<String>,
        aggregate: Option<Vec<AggregateItem>>,
    },
}

/// A column of a key and its value (OData ABNF Construction Rules, section 1, `keyValuePair`).
#[derive(Drop)]
pub struct KeyPair {
    pub name: String,
    pub value: Literal,
}

/// What is between the parentheses after a set's name (OData 4.01 URL Conventions, section 4.3.1).
#[derive(Drop)]
pub enum Key {
    /// A value alone.
    Single(Literal),
    /// Columns and their values, at least one.
    Named(Vec<KeyPair>),
}
