//! Folders of CSV files, by their names: on a disk, and the one that is built in. Of a disk plain files are read alone. Contracts see what folders report and count.
#![tactic(auto)]

mod disk;
mod disk_loading;
mod folders;
mod names;
mod plain;
mod some_folder;
mod taken;

pub use disk::Disk;
pub use disk_loading::{DiskLoaded, DiskLoading};
pub use folders::{
    BuiltIn, FolderFault, Folders, NOTES, NOTES_BYTES, NOTES_FILE, NOTES_METADATA, notes,
};
pub use names::{METADATA, names_of};
pub use plain::{is_too_large, look, open_plain, read_piece, read_plain};
