//! The operators that a typed expression keeps (OData 4.01 URL Conventions, section 5.1.1).

/// `add`, `sub`, `mul`, `div` and `mod` (section 5.1.1.2).
#[derive(Clone, Copy, PartialEq, Eq)]
pub enum ArithmeticOperator {
    Add,
    Sub,
    Mul,
    Div,
    Mod,
}
