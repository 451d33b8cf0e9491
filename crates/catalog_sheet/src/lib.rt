//! What the service understands of the tables of a folder, as text for a person who writes metadata: of each table its name, its rows and its columns, and of
//! each column its datatype, its nulls, its least and its greatest value.
#![tactic(auto)]

mod range;
mod sheet;
mod show;

pub use show::catalog_text;
