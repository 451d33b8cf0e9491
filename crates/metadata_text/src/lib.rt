//! The text of metadata that has some schemas (Metadata Vocabulary for Tabular Data), indented by two.
#![tactic(auto)]

mod column_text;
mod members;
mod table_text;
mod text;

pub use text::{column_json, schemas_json, table_json};
