//! The values of cells as people write them, and their texts as a column of CSVW reads them (Metadata Vocabulary for Tabular Data, section 5.11.2): numbers with a
//! decimal comma, with marks between thousands, with a percent sign, an exponent or a currency; dates in other orders, with a time of day; truth words. What is not of
//! a form has no value in it. Which form a column has is a guess of the crates above.
#![tactic(auto)]

mod date;
mod decimal;
mod fits;
mod form;
mod laws;
mod number;
mod rounding;
mod scale;
mod time;
mod truth;
mod unit;

pub use date::{DateOrder, DayForm, day_text};
pub use fits::is_of_form;
pub use form::{Form, Made, NumberForm, Scale, made_by};
pub use laws::{rounds_half_to_even, worked_dates, worked_numbers, worked_truths};
pub use number::{Marks, number_text};
pub use rounding::{Rounded, rounded_text};
pub use scale::{exponent_text, percent_text};
pub use time::{is_midnight, is_time, split_time};
pub use truth::{TRUTHS, TruthWords, truth_text};
pub use unit::{UNITS, Unit, without_unit};
