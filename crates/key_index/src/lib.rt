//! The keys of a table's rows (Model for Tabular Data and Metadata on the Web, sections 4.4 and 6.6; Metadata Vocabulary for Tabular Data, section
//! 5.5, `primaryKey`). [`KeysReading`] gives the keys of rows of columns in steps, or the first row with a null in its key, or else the first row whose key is
//! that of an earlier row; [`Keys::find`] then gives the row with a key. No value is kept twice: rows are in slots by the hashes of their keys.
#![tactic(auto)]

ghost use Rattle.key_index.specs.Laws.{KeysFindRows};

mod cells;
mod hashes;
mod keys;
mod reading;
mod rising;
mod slots;

pub use keys::{KeyFault, Keys};
pub use reading::{KeyStep, KeyedRows, KeysReading};

/// If no key has a null and no two are one, the row with the key of a row is that row.
pub fn keys_find_rows()
    ensures { KeysFindRows }
{
    cell_types::values_are_ordered();
}
