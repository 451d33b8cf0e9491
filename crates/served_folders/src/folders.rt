//! Folders of files, and the one that is built in.
ghost use Rattle.std.specs.Prelude.{◌≡◌, IfErr, IfOk, IfSome, Some, string_bytes};
ghost use Rattle.table_store.specs.Catalog.{IsRefused, Means};
ghost use Rattle.table_store.specs.Fault.{load_cause};
ghost use Rattle.served_folders.specs.Laws.{HasNotes};
ghost use Rattle.served_folders.specs.Folders.{CountsUp, CountsFolderFault, FoldersOf, IsRefusalOf, MeansTaken, built_in, notes_folder, unasked};

use csvw_meta::Limits;
use std::alloc::{AllocError, Global};
use table_store::{Catalog, LoadFault, NamedFile};

/// Why a folder gives no catalog.
#[derive(Drop)]
pub enum FolderFault {
    /// The folder has no `csv-metadata.json`.
    NoMetadata,
    /// The folder is refused.
    Load(LoadFault),
    /// A file could not be read.
    Device,
    /// Memory ran out.
    NoMemory,
}

impl From<AllocError> for FolderFault {
    ghost use Rattle.served_folders.specs.declared.folders.FolderFault.TheVariants.{NoMemory};

    ghost from_gives = { λ _ fault. fault ≡ NoMemory };

    fn from(_: AllocError) -> FolderFault {
        FolderFault::NoMemory
    }
}

impl From<LoadFault> for FolderFault {
    ghost use Rattle.served_folders.specs.declared.folders.FolderFault.TheVariants.{Load};

    ghost from_gives = { λ fault made. made ≡ Load fault };

    fn from(fault: LoadFault) -> FolderFault {
        FolderFault::Load(fault)
    }
}

/// Where folders are loaded from, by their names.
pub trait Folders {
    /// What the last load under a name took, if that is known, and the counts of loads and of two answers.
    ghost folders: { Self → FoldersOf };

    /// Returns the catalog of the folder of that name: what `Catalog::load` answers of what was taken.
    fn load(&mut self, alloc: Global, name: &str) -> Result<Catalog, FolderFault>
        ensures tables { IfOk result (MeansTaken ((folders self.new).took name.now)) }
        ensures fault { IfErr result (IsRefusalOf ((folders self.new).took name.now)) }
        ensures load { CountsUp (folders self.old).loads (folders self.new).loads }
        ensures counts { CountsFolderFault (folders self.old) (folders self.new) result };
}

/// The name of the folder that is built in.
pub const NOTES: &str = "notes";

/// The metadata of that folder.
pub const NOTES_METADATA: &str =
    "{\"url\":\"notes.csv\",\"tableSchema\":{\"columns\":[{\"name\":\"Id\"},{\"name\":\"Text\"}]}}\n";

/// The name of its one file.
pub const NOTES_FILE: &str = "notes.csv";

/// The bytes of that file.
pub const NOTES_BYTES: &str = "Id,Text\n1,hello\n2,\"a, b\"\n";

/// The bytes of that folder.
pub fn notes()
    ensures { HasNotes }
{}

/// The folder `notes`, which the program has in itself; there is no other. It counts its loads, and those under other names.
#[derive(Drop)]
pub struct BuiltIn {
    loads: u64,
    others: u64,
}

impl BuiltIn {
    /// Returns the folder, which was not loaded yet.
    pub fn new() -> BuiltIn
        ensures { ⟦<BuiltIn as Folders>⟧.folders result ≡ unasked (λ name. Some (built_in name)) }
    {
        BuiltIn {
            loads: 0,
            others: 0,
        }
    }
}

/// Returns the built-in folder's only file.
fn notes_file(alloc: Global) -> Result<NamedFile, AllocError>
    ensures name { IfOk result (λ file. string_bytes file.name ≡ NOTES_FILE.now) }
    ensures bytes { IfOk result (λ file. file.bytes.items ≡ NOTES_BYTES.now) }
{
    let name = String::from_str(alloc, NOTES_FILE)?;
    let bytes = Vec::from_slice(alloc, NOTES_BYTES.as_bytes())?;
    Ok(NamedFile { name, bytes })
}

/// Returns the catalog of the built-in folder.
fn load_notes(alloc: Global) -> Result<Catalog, LoadFault>
    ensures tables { IfOk result (Means notes_folder) }
    ensures fault { IfErr result (λ e. IfSome (load_cause e) (IsRefused notes_folder)) }
{
    let meta = Vec::from_slice(alloc, NOTES_METADATA.as_bytes())?;
    let file = notes_file(alloc)?;
    let Ok(files) = vec![in alloc; file] else {
        return Err(LoadFault::NoMemory);
    };
    Catalog::load(alloc, Limits::greatest(), meta, files)
}

impl Folders for BuiltIn {
    ghost folders = { λ s. record {
      took = λ name. Some (built_in name);
      loads = s.loads;
      no_metadata = s.others;
      device = 0;
    } };

    /// Returns the catalog of `notes`; there is no metadata under any other name.
    fn load(&mut self, alloc: Global, name: &str) -> Result<Catalog, FolderFault> {
        self.loads = self.loads.saturating_add(1);
        if name != NOTES {
            self.others = self.others.saturating_add(1);
            return Err(FolderFault::NoMetadata);
        }
        Ok(load_notes(alloc)?)
    }
}
