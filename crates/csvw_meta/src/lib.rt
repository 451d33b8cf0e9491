//! The schemas of tables from their metadata (Metadata Vocabulary for Tabular Data). [`Schemas::read`] gives what the metadata says, or
//! the first fault of one walk over it: the document, the group, each table, its schema, each column, and at each level what
//! columns inherit.
#![tactic(auto)]

mod column;
mod datatype;
mod document;
mod fault;
mod forms;
mod group;
mod inherited;
mod key;
mod laws;
mod limits;
mod members;
mod refusal;
mod schema;
mod table;
mod texts;

pub use document::Schemas;
pub use fault::MetaFault;
pub use forms::{is_table_url, table_name};
pub use laws::{
    accepted_schemas, defaults_are_short, levels_are_of_form, mark_is_dropped, nearest_level,
    schemas_or_cause, sizes, texts_tell_faults_apart, worked_metadata,
};
pub use limits::{Limits, MOST_COLUMNS, MOST_FILE_BYTES, MOST_TABLES, MOST_TRANSFORMATIONS};
pub use schema::Schema;
