//! The tables of a folder of CSV files (Model for Tabular Data and Metadata on the Web, section 4). [`Catalog::load`] gives the annotated
//! tables that the metadata and the files mean, or the one cause why the folder is refused; [`Table::value`] then gives a cell, and
//! [`Table::find`] the row with a key. The functions without a body are laws of the definitions: each is a theorem, and does nothing.
#![tactic(auto)]

mod block;
mod catalog;
mod fault;
mod file;
mod folder_loading;
mod laws;
mod reading;
mod remains;
mod summaries;
mod table;
mod table_fault;
mod table_loading;

pub use block::Block;
pub use catalog::Catalog;
pub use fault::LoadFault;
pub use file::{FileStart, NamedFile};
pub use folder_loading::{Loaded, Loading};
pub use laws::{
    first_bad_cell_is_first, first_mismatch_is_first, keys_of_tables, one_meaning,
    schemas_of_tables, worked_tables,
};
pub use remains::Remains;
pub use table::Table;
