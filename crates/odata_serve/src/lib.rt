//! What the program does: it answers a stream of requests, checks a folder of CSV files, replays a script of events or serves connections, as the
//! words of its command line ask. Folders, streams and connections come by traits; contracts see what these report and count.
#![tactic(auto)]

mod check;
mod command;
mod listener;
mod program;
mod serving;
mod words;

pub use check::check_folder;
pub use command::{command_status, line_status, unread_status, usage_status};
pub use exit_statuses::{
    DEVICE, DONE, MEMORY, ProgramFault, REFUSED, USAGE, error_status, fault_line, report,
};
pub use hub_scripts::{plays_schedule, replay_script};
pub use listener::{CountedListener, Listener};
pub use program::{answer, query, request_to, sizes};
pub use served_folders::{BuiltIn, Disk, FolderFault, Folders, NOTES};
pub use serving::serve;
pub use words::{Words, WordsFault, read_words};
