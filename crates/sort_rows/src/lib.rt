//! Rows by their numbers in columns: those that pass a filter, rows in the order of `$orderby`, and the first of them (OData 4.01 URL
//! Conventions, sections 5.1.2, 5.1.5 and 5.1.6). No row is moved: of numbers of rows come numbers of rows.
#![tactic(auto)]

mod best;
mod cutoffs;
mod keyed;
mod keys;
mod law;
mod passing;
mod ranges;
mod run_rows;
mod runs;
mod sorting;
mod streams;
mod text_keys;

pub use best::best_numbers;
pub use cutoffs::{cutoff, first_place, nearness};
pub use law::{best_in_pieces, orders_are_merged, rows_are_cut_off};
pub use passing::passing_numbers;
pub use run_rows::{RunRow, is_less};
pub use runs::SortedRuns;
pub use streams::{First, SortedRows, Stream, first_of};
