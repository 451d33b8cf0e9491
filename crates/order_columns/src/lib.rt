//! The columns that items of `$orderby` are (OData 4.01 URL Conventions, section 5.1.5): those of a table, and those of the values of items that are computed.
#![tactic(auto)]

mod front;
mod item_columns;
mod item_values;
mod plain;

pub use front::{FrontGuess, TextFront};
pub use item_columns::ItemColumns;
pub use item_values::{column_items, deciding_columns, keep_values, no_values};
pub use plain::{PlainItem, column_value, columns_order, is_repeated, item_column, plain_items};
