//! Whether a folder is served, in little memory: its caller gives each file in pieces ([`FileCheck`]), of whose rows the cells are read and dropped, but those of the
//! key's columns. [`FolderCheck`] finds what loading the folder would find: that tables are meant, or the one cause why it is refused.
#![tactic(auto)]

mod cells;
mod fault;
mod file_check;
mod folder_check;
mod windows;

pub use fault::CheckFault;
pub use file_check::FileCheck;
pub use folder_check::FolderCheck;
pub use windows::{Fed, Windows};
