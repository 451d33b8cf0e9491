//! The form that all cells of a column have that are not null: a guess, by which no cell is changed that is not of the form.
#![tactic(auto)]

mod candidates;
mod choice;
mod seen;
mod wants;

pub use choice::{Choice, Point, choice_of, is_plain, point_of};
pub use seen::{CellsSeen, NULLS, null_place, seen_text};
pub use wants::Wants;
