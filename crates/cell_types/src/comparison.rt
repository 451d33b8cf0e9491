//! The comparisons of values (OData 4.01 URL Conventions, sections 5.1.1.1.1 to 5.1.1.1.6).

/// `eq`, `ne`, `gt`, `ge`, `lt` and `le`. Null equals null and nothing else, and is neither greater nor less than anything.
#[derive(Clone, Copy, PartialEq, Eq)]
pub enum ComparisonOperator {
    Equal,
    NotEqual,
    GreaterThan,
    GreaterOrEqual,
    LessThan,
    LessOrEqual,
}
