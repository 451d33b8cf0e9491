//! The files of a folder, each with its name.
ghost use Rattle.std.specs.Prelude.{◌≡◌, List, ℕ, false, string_bytes};
ghost use Rattle.std.specs.List.{position};
ghost use Rattle.std.specs.Str.{bytes_eq};
ghost use Rattle.table_store.specs.File.{files_view, file_named, IsFileTaken};

use std::alloc::Global;
use std::mem;

/// A file of a folder.
#[derive(Drop)]
pub struct NamedFile {
    pub name: String,
    pub bytes: Vec<u8>,
}

/// What there is of the file of a table before it is read.
#[derive(Drop)]
pub enum FileStart {
    /// There is no file of that name.
    Missing,
    /// It has more bytes than the limit.
    TooLarge,
    /// It begins with these bytes, which may be none.
    Begins(Vec<u8>),
}

/// Returns the place of the first file of a name.
fn first_named(files: &[NamedFile], name: &str) -> Option<usize>
    ensures { result ≡ position (λ file. bytes_eq (string_bytes file.name) name.now) files.now }
{
    files.iter().position(|file| file.name.as_str() == name)
}

/// Returns the first file of a name, whose bytes are moved out of it.
pub(crate) fn take_file(alloc: Global, files: &mut Vec<NamedFile>, name: &str) -> FileStart
    ensures file { IsFileTaken (file_named name.now (files_view files.old.items)) result }

    // The files of other names are as they were.
    ensures others { (other : List ℕ) → bytes_eq name.now other ≡ false
        → file_named other (files_view files.new.items)
        ≡ file_named other (files_view files.old.items) }
{
    match first_named(files.as_slice(), name) {
        None => FileStart::Missing,
        Some(place) => {
            let file = &mut files[place];
            FileStart::Begins(mem::replace(&mut file.bytes, Vec::new(alloc)))
        }
    }
}
