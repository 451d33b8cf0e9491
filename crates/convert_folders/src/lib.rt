//! A folder converted into another, whole or not at all: what is asked for in its columns, the names of its files, their metadata, which is checked as every draft is, the
//! new folder, which appears by one renaming, and a report of all that is changed.
#![tactic(auto)]

mod changes;
mod columns;
mod convert;
mod forms;
mod metadata;
mod places;
mod proposals;
mod publish;
mod refusals;
mod report;
mod rules;
mod tables;
mod warnings;

pub use convert::convert_folder;
pub use places::names_in;
