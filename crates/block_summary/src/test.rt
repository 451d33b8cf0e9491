//! Tests of a column against a literal (OData 4.01, URL Conventions, sections 5.1.1.1.1 to 5.1.1.1.6).

use cell_types::{ComparisonOperator, Value};

/// A column compared with a literal, which may be null.
#[derive(Drop)]
pub struct Test<'a> {
    pub op: ComparisonOperator,
    pub literal: Value<'a>,
}
