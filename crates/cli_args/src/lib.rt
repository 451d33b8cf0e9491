//! What the command lines of the programs over folders share: the arguments of their commands, as `clap` reads them, the words that the system hands over, and why
//! words are no command.
#![tactic(auto)]

mod command;
mod fault;
mod words;

pub use command::{
    FOLDER_HELP, VERSION, add_command, add_flag, add_folder, add_folder_command, add_number,
    add_place, add_port, add_text, inner_command, matches_of, top_command,
};
pub use fault::ArgsFault;
pub use words::{flag, line_of, number, port, port_option, required, system_words, text};
