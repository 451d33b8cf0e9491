//! Scripts of a hub over folders: each line is a command to the hub and is answered by one line. The file of a script is read whole.
#![tactic(auto)]

mod answers;
mod replay;
mod script_file;

pub use replay::{PLACES, limits, plays_schedule, reloads_are_one_line, replay_script};
pub use script_file::read_script;
