//! A folder of a disk that is loaded in steps: of each of its tables in turn the file is opened, read piece by piece, and then the keys of its rows.
ghost use Rattle.std.specs.Prelude.{◌≡◌, ◌≢◌, ◌<◌, None, Ok, IfErr, IfOk, IsErrAnd, IsSome};
ghost use Rattle.std.specs.IoError.{error_kind};
ghost use Rattle.table_store.specs.FolderSteps.{next_url, steps_left, waiting_url};
ghost use Rattle.served_folders.specs.Folders.{IsRefusalOf};
ghost use Rattle.served_folders.specs.Steps.{IsLoadingTaken, IsUnread, StateGoesOn};

use crate::folders::FolderFault;
use crate::plain::{is_too_large, open_plain, read_piece};
use crate::some_folder;
use crate::taken::device_fault;
use std::alloc::Global;
use std::io::{self, ErrorKind, Read};
use std::marker::Model;
use std::rt::Files;
use table_store::{Catalog, FileStart, Loaded, Loading};

/// How far the loading of a folder of a disk has come: its path, its tables, and the file of the one that is under way.
#[derive(Drop)]
pub(crate) struct State<F> {
    pub folder: String,
    pub loading: Loading,
    pub file: Option<F>,
    /// Room for a piece of the file.
    pub piece: Vec<u8>,
}

/// A folder of a disk that is loaded. It is seen as a number: no more steps than these are left.
#[derive(Drop)]
pub struct DiskLoading<F> {
    pub(crate) state: State<F>,
}

impl<F> Model for DiskLoading<F> {
    ghost use Rattle.std.specs.Prelude.{ℕ};

    ghost Value = { ℕ };

    ghost use Rattle.table_store.specs.FolderSteps.{steps_left};
    ghost use Rattle.served_folders.specs.Steps.{IsLoadingTaken};

    ghost view = { λ disk. steps_left disk.state.loading };

    ghost invariant = { λ disk. IsLoadingTaken disk.state.loading };
}

/// What a step of the loading of a folder of a disk leaves.
#[derive(Drop)]
pub enum DiskLoaded<F> {
    /// There is more to read.
    On(DiskLoading<F>),
    /// All tables are read.
    Over(Catalog),
}

/// What a step of a state leaves.
#[derive(Drop)]
pub(crate) enum StateStep<F> {
    On(State<F>),
    Over(Catalog),
}

/// Returns what there is of a file of `length` bytes before it is read.
fn file_of(alloc: Global, length: u64) -> FileStart
    ensures { IsUnread length result }
{
    if is_too_large(length) {
        FileStart::TooLarge
    } else {
        FileStart::Begins(Vec::new(alloc))
    }
}

/// Returns that there is no file if it was not opened for that `error`, and else its fault.
fn unopened(error: &io::Error) -> Result<FileStart, FolderFault>
    ensures missing { error_kind error.now ≡ ErrorKind.NotFound → result ≡ Ok FileStart.Missing }
    ensures fault { error_kind error.now ≢ ErrorKind.NotFound → IsErrAnd result (IsRefusalOf None) }
{
    match error.kind() {
        ErrorKind::NotFound => Ok(FileStart::Missing),
        _ => Err(device_fault(error)),
    }
}

impl<F: Read + Drop> State<F> {
    /// Opens the file of the next table.
    fn open_next<R: Files<File = F>>(
        self,
        alloc: Global,
        files: &R,
        follows: bool,
    ) -> Result<State<F>, FolderFault>
        requires next { IsSome (next_url self.loading) }
        requires loads { IsLoadingTaken self.loading }
        ensures goes_on { IfOk result (λ new. IsLoadingTaken new.loading
            × (steps_left new.loading < steps_left self.loading)) }
        ensures fault { IfErr result (IsRefusalOf None) }
    {
        let State {
            folder,
            loading,
            file,
            piece,
        } = self;
        drop(file); // one file is open at a time
        let path = {
            let folder = folder.as_str();
            let url = loading.next_url().unwrap_or("");
            format!(in alloc; "{folder}/{url}")?
        };
        let (of, file) = match open_plain(files, path.as_str(), follows) {
            Ok((file, length)) => (file_of(alloc, length), Some(file)),
            Err(error) => (unopened(&error)?, None),
        };
        let loading = some_folder::begin(loading, of)?;
        Ok(State {
            folder,
            loading,
            file,
            piece,
        })
    }

    /// Reads a piece of the file of the table that is under way.
    fn read_on(self) -> Result<State<F>, FolderFault>
        requires wants { IsSome (waiting_url self.loading) }
        requires loads { IsLoadingTaken self.loading }
        ensures goes_on { IfOk result (λ new. IsLoadingTaken new.loading
            × (steps_left new.loading < steps_left self.loading)) }
        ensures fault { IfErr result (IsRefusalOf None) }
    {
        let State {
            folder,
            loading,
            mut file,
            mut piece,
        } = self;
        piece.clear();
        if let Some(file) = &mut file {
            match read_piece(file, &mut piece) {
                Ok(_) => {}
                Err(error) => return Err(device_fault(&error)),
            }
        }
        let loading = some_folder::feed(loading, piece.as_slice())?;
        Ok(State {
            folder,
            loading,
            file,
            piece,
        })
    }

    /// Opens the file of the next table, reads a piece of one, or goes on with its table. Returns the catalog once all tables are read.
    pub(crate) fn step<R: Files<File = F>>(
        self,
        alloc: Global,
        files: &R,
        follows: bool,
    ) -> Result<StateStep<F>, FolderFault>
        requires { IsLoadingTaken self.loading }
        ensures goes_on { IfOk result (StateGoesOn (steps_left self.loading)) }
        ensures fault { IfErr result (IsRefusalOf None) }
    {
        if self.loading.next_url().is_some() {
            return Ok(StateStep::On(self.open_next(alloc, files, follows)?));
        }
        if self.loading.wants() {
            return Ok(StateStep::On(self.read_on()?));
        }
        let State {
            folder,
            loading,
            file,
            piece,
        } = self;
        match some_folder::step(loading, alloc)? {
            Loaded::On(loading) => Ok(StateStep::On(State {
                folder,
                loading,
                file,
                piece,
            })),
            Loaded::Over(catalog) => Ok(StateStep::Over(catalog)),
        }
    }
}
