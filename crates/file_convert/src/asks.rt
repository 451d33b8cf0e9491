//! What is asked for in the conversion of a file.
use column_forms::Wants;

/// What a line of `--columns` asks for in a column.
#[derive(Clone, Copy)]
pub enum What<'a> {
    /// The cells stay as they are.
    Text,
    /// Numbers are rounded to six decimal places.
    Round,
    /// Numbers have a decimal comma.
    Comma,
    /// Numbers have a decimal point.
    Point,
    /// Days come first in dates.
    DayFirst,
    /// Months come first in dates.
    MonthFirst,
    /// A text stands for null.
    Null(&'a str),
}

/// A line of `--columns`: a header cell, and what it asks for in that column.
#[derive(Clone, Copy)]
pub struct Rule<'a> {
    pub title: &'a str,
    pub what: What<'a>,
}

/// What is asked for in the conversion of a file.
#[derive(Clone, Copy)]
pub struct ConvertOptions<'a> {
    /// Lines before the header that are left out.
    pub skip_lines: usize,
    /// Short rows get empty cells.
    pub pads: bool,
    /// Numbers are rounded to six decimal places.
    pub rounds: bool,
    /// A text that stands for null in columns of texts.
    pub null: Option<&'a str>,
    pub rules: &'a [Rule<'a>],
}

/// Adds what a rule asks for.
fn add<'a>(wants: &mut Wants<'a>, what: What<'a>) {
    match what {
        What::Text => wants.text = true,
        What::Round => wants.round = true,
        What::Comma => wants.comma = true,
        What::Point => wants.point = true,
        What::DayFirst => wants.day_first = true,
        What::MonthFirst => wants.month_first = true,
        What::Null(text) => wants.null = Some(text),
    }
}

impl<'a> ConvertOptions<'a> {
    /// Returns what is asked for in a column by its header cell.
    pub fn wants(&self, title: &str) -> Wants<'a> {
        let mut wants = Wants {
            text: false,
            round: self.rounds,
            comma: false,
            point: false,
            day_first: false,
            month_first: false,
            null: self.null,
        };
        for rule in self.rules {
            if rule.title == title {
                add(&mut wants, rule.what);
            }
        }
        wants
    }
}
