//! Fields as they stand in a file (RFC 4180, section 2). A [`Raw`] is the bytes of a field without its enclosing double quotes, and whether it has
//! them; [`Raw::text`] is what the field says, and [`cell_value`] the value that it has in a column (Model for Tabular Data and Metadata on the Web,
//! section 6.4), or why it has none. [`between`] is the field
//! between two structural places, and a [`Part`] rows of fields that stand so, each found by its row and its column.
#![tactic(auto)]

ghost use Rattle.csv_fields.specs.Laws.{FieldsStandSo};

mod part;
mod pieces;
mod raw;
mod value;

pub use part::Part;
pub use pieces::{between, piece};
pub use raw::Raw;
pub use value::cell_value;

/// What stands as a field does is that field.
#[inline(always)]
pub fn fields_stand_so()
    ensures { FieldsStandSo }
{}
