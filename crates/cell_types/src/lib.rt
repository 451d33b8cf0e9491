//! Datatypes, columns and the values of cells (Model for Tabular Data and Metadata on the Web, section 6.4). [`read_cell`] gives the
//! one value of a text in a column, or the one cause why it has none.
#![tactic(auto)]

mod boolean;
mod cell;
mod column;
mod comparison;
mod datatype;
mod date;
mod decimal;
mod fault;
mod integer;
mod kind;
mod laws;
mod number;
mod plain;
mod value;
mod white_space;

pub use cell::{read_cell, read_short_integer, read_text, string_of};
pub use column::Column;
pub use comparison::ComparisonOperator;
pub use datatype::{BooleanForm, Datatype, DateForm};
pub use fault::CellFault;
pub use kind::{
    ColumnKind, NumberKind, day_number, number_in, number_of, of_kind, typed_value, value_of_number,
};
pub use laws::{
    dates_read_back, decimals_read_back, integers_read_back, memory_is_no_cause, normal_texts,
    numbers_stand_for_cells, strings_have_values, texts_are_in_order, values_are_ordered,
    values_compare_as_their_views, values_fit_columns, worked_cells,
};
pub use number::read_number;
pub use plain::{read_plain_boolean, read_plain_date, read_plain_decimal};
pub use value::{Value, lent, owned};
