//! Texts of others in messages. A message is one line: a control character of a text that another wrote, as a line feed or what begins an escape
//! sequence of a terminal, is written as `\u` and its code in four hexadecimal digits. Nothing else of the text is changed.
#![tactic(auto)]

mod escapes;
mod laws;

pub use escapes::escaped;
pub use laws::{
    escaped_texts_are_one_line, plain_texts_are_one_line, plain_texts_stay, texts_stay_apart,
    worked_texts,
};
