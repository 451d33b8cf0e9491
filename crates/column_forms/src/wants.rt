//! What is asked for in a column.

/// What is asked for in a column.
#[derive(Clone, Copy)]
pub struct Wants<'a> {
    pub text: bool,
    pub round: bool,
    pub comma: bool,
    pub point: bool,
    pub day_first: bool,
    pub month_first: bool,
    pub null: Option<&'a str>,
}
