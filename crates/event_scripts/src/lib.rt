//! Event scripts: each line is a command to a hub of connections. A script is cut into its lines, a line is read as a command or is no
//! command, and what is answered is a line. The bytes of a stream stand in a line with CR, LF and backslash escaped.
#![tactic(auto)]

mod answers;
mod command;
mod escapes;
mod fault;
mod laws;
mod lines;
mod number;

pub use answers::{bytes_line, place_line, refusal_line, text_line};
pub use command::{Command, Word, read_command};
pub use fault::CommandFault;
pub use laws::{limits, one_command, reads_back};
pub use lines::first_line;
pub use number::MOST_NUMBER;
