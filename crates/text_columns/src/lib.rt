//! The texts of one column of a block, one after the other. A [`TextBuffer`] takes in texts, nulls and fields as they stand in their file
//! row by row; [`TextBuffer::pack`] keeps them as a [`TextBlock`], of which a [`TextColumn`] gives the text of each row, the rows in whose text a part stands,
//! and a code for each row where there are few different texts.
#![tactic(auto)]

mod block;
mod bounds;
mod buffer;
mod codes;
mod column;
mod content;
mod places;
mod plain;
mod room;
mod search;

pub use block::TextBlock;
pub use bounds::TextBounds;
pub use buffer::TextBuffer;
pub use codes::TextCodes;
pub use column::TextColumn;
