//! Folders on a disk, by their paths.
ghost use Rattle.std.specs.Prelude.{◌≡◌, ⊤, None, Err, IfErr, IfOk, map, string_bytes};
ghost use Rattle.served_folders.specs.Disk.{AreFileNames};
ghost use Rattle.served_folders.specs.Folders.{CountsFolderFault, CountsUp, IsRefusalOf, MeansTaken, unasked};
ghost use Rattle.served_folders.specs.Steps.{DiskGoesOn, IsLoadingTaken};

use crate::disk_loading::{DiskLoaded, DiskLoading, State, StateStep};
use crate::folders::{FolderFault, Folders};
use crate::names::names_of;
use crate::some_folder;
use crate::taken::{look_at, take_metadata};
use std::alloc::Global;
use std::rt::Files;
use table_store::Catalog;

/// The folders of a disk, by their paths. What a load took is not told.
#[derive(Drop)]
pub struct Disk<'a, R> {
    files: &'a R,
    /// Whether a link may stand in the place of a file.
    follows: bool,
    loads: u64,
    no_metadata: u64,
    device: u64,
}

impl<'a, R: Files> Disk<'a, R> {
    /// Returns the folders of that disk, none of which was asked for yet.
    pub fn new(files: &'a R) -> Disk<'a, R>
        ensures { ⟦<Disk<'a, R> as Folders>⟧.folders result ≡ unasked (λ _. None) }
    {
        Disk {
            files,
            follows: true,
            loads: 0,
            no_metadata: 0,
            device: 0,
        }
    }

    /// Returns the same folders. If `yes`, a link in the place of a file is followed; else it is no plain file.
    pub fn follow_links(mut self, yes: bool) -> Disk<'a, R>
        ensures { ⟦<Disk<'a, R> as Folders>⟧.folders result
            ≡ ⟦<Disk<'a, R> as Folders>⟧.folders self.entry }
    {
        self.follows = yes;
        self
    }

    /// Counts a fault of a load, if it is one that is counted.
    fn count(&mut self, fault: &FolderFault)
        ensures load { (⟦<Disk<'a, R> as Folders>⟧.folders self.new).loads
            ≡ (⟦<Disk<'a, R> as Folders>⟧.folders self.old).loads }
        ensures counts { CountsFolderFault {X = ⊤} (⟦<Disk<'a, R> as Folders>⟧.folders self.old)
            (⟦<Disk<'a, R> as Folders>⟧.folders self.new) (Err fault.now) }
    {
        match fault {
            FolderFault::NoMetadata => self.no_metadata = self.no_metadata.saturating_add(1),
            FolderFault::Device => self.device = self.device.saturating_add(1),
            _ => {}
        }
    }

    /// Reads the metadata of the folder at that path, and looks at the files of its tables.
    fn start(&self, alloc: Global, name: &str) -> Result<State<R::File>, FolderFault>
        ensures loads { IfOk result (λ state. IsLoadingTaken state.loading) }
        ensures fault { IfErr result (IsRefusalOf None) }
    {
        // the empty name is that of no folder, and not of the root of all
        if name.is_empty() {
            return Err(FolderFault::NoMetadata);
        }
        let Some(meta) = take_metadata(alloc, self.files, self.follows, name)? else {
            return Err(FolderFault::NoMetadata);
        };
        let names = names_of(alloc, meta.as_slice())?;
        look_at(alloc, self.files, self.follows, name, names.as_slice())?;
        Ok(State {
            folder: String::from_str(alloc, name)?,
            loading: some_folder::start(alloc, meta)?,
            file: None,
            piece: Vec::new(alloc),
        })
    }

    /// Begins to load the folder at that path: reads its metadata, and looks at the files of its tables.
    pub fn begin(&mut self, alloc: Global, name: &str) -> Result<DiskLoading<R::File>, FolderFault>
        ensures fault { IfErr result (IsRefusalOf None) }
        ensures load { CountsUp (⟦<Disk<'a, R> as Folders>⟧.folders self.old).loads
            (⟦<Disk<'a, R> as Folders>⟧.folders self.new).loads }
        ensures counts { CountsFolderFault (⟦<Disk<'a, R> as Folders>⟧.folders self.old)
            (⟦<Disk<'a, R> as Folders>⟧.folders self.new) result }
    {
        self.loads = self.loads.saturating_add(1);
        match self.start(alloc, name) {
            Ok(state) => Ok(DiskLoading { state }),
            Err(fault) => {
                self.count(&fault);
                Err(fault)
            }
        }
    }

    /// Takes one step of a load: opens the file of a table, reads a piece of it, or goes on with the table. Returns the catalog once all tables are read.
    pub fn step(
        &mut self,
        alloc: Global,
        loading: DiskLoading<R::File>,
    ) -> Result<DiskLoaded<R::File>, FolderFault>
        ensures goes_on { IfOk result (DiskGoesOn loading) }
        ensures fault { IfErr result (IsRefusalOf None) }
        ensures load { (⟦<Disk<'a, R> as Folders>⟧.folders self.new).loads
            ≡ (⟦<Disk<'a, R> as Folders>⟧.folders self.old).loads }
        ensures counts { CountsFolderFault (⟦<Disk<'a, R> as Folders>⟧.folders self.old)
            (⟦<Disk<'a, R> as Folders>⟧.folders self.new) result }
    {
        match loading.state.step(alloc, self.files, self.follows) {
            Ok(StateStep::On(state)) => Ok(DiskLoaded::On(DiskLoading { state })),
            Ok(StateStep::Over(catalog)) => Ok(DiskLoaded::Over(catalog)),
            Err(fault) => {
                self.count(&fault);
                Err(fault)
            }
        }
    }

    /// Returns the catalog, by all steps that are left.
    fn finish(
        &mut self,
        alloc: Global,
        loading: DiskLoading<R::File>,
    ) -> Result<Catalog, FolderFault>
        ensures tables { IfOk result (MeansTaken None) }
        ensures fault { IfErr result (IsRefusalOf None) }
        ensures load { (⟦<Disk<'a, R> as Folders>⟧.folders self.new).loads
            ≡ (⟦<Disk<'a, R> as Folders>⟧.folders self.old).loads }
        ensures counts { CountsFolderFault (⟦<Disk<'a, R> as Folders>⟧.folders self.old)
            (⟦<Disk<'a, R> as Folders>⟧.folders self.new) result }
    {
        let mut loading = loading;
        loop {
            match self.step(alloc, loading) {
                Ok(DiskLoaded::On(on)) => loading = on,
                Ok(DiskLoaded::Over(catalog)) => return Ok(catalog),
                Err(fault) => return Err(fault),
            }
        }
    }

    /// Returns the names of the files that the metadata of the folder at that path names; none if it is refused.
    pub fn names(&self, alloc: Global, folder: &str) -> Result<Vec<String>, FolderFault>
        ensures { IfOk result (λ names. AreFileNames (map string_bytes names.items)) }
    {
        match take_metadata(alloc, self.files, self.follows, folder) {
            Ok(Some(meta)) => Ok(names_of(alloc, meta.as_slice())?),
            Ok(None) => Err(FolderFault::NoMetadata),
            Err(fault) => Err(fault),
        }
    }
}

impl<'a, R: Files> Folders for Disk<'a, R> {
    ghost folders = { λ s. record {
      took = λ _. None;
      loads = s.loads;
      no_metadata = s.no_metadata;
      device = s.device;
    } };

    /// Returns the catalog of the folder at that path.
    fn load(&mut self, alloc: Global, name: &str) -> Result<Catalog, FolderFault> {
        let loading = self.begin(alloc, name)?;
        self.finish(alloc, loading)
    }
}
