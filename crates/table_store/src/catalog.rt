//! The tables of a folder.
ghost use Rattle.std.specs.Prelude.{◌≡◌, None, IfOk, IfErr, IfSome, find};
ghost use Rattle.std.specs.Option.{option_copied};
ghost use Rattle.std.specs.Str.{bytes_eq};
ghost use Rattle.csvw_meta.specs.Limits.{limits_view};
ghost use Rattle.table_store.specs.Fault.{load_cause};
ghost use Rattle.table_store.specs.Catalog.{folder_view, FolderOf, Means, IsRefused};
ghost use Rattle.table_store.specs.FolderSteps.{steps_left, LoadsIn, LoadsOnIn};
ghost use Rattle.table_store.specs.Remains.{parts_of_tables};

use crate::fault::LoadFault;
use crate::file::{NamedFile, take_file};
use crate::folder_loading::{Loaded, Loading};
use crate::remains::Remains;
use crate::table::Table;
use csvw_meta::Limits;
use std::alloc::Global;
use std::marker::Model;

/// The tables of a folder, in the order of its metadata.
#[derive(Drop)]
pub struct Catalog {
    pub(crate) limits: Limits,
    pub(crate) tables: Vec<Table>,
}

impl Model for Catalog {
    ghost use Rattle.table_store.specs.Catalog.{CatalogOf};

    ghost Value = { CatalogOf };

    ghost use Rattle.csvw_meta.specs.Limits.{limits_view};

    ghost view = { λ catalog. record { limits = limits_view catalog.limits; tables = catalog.tables.items } };
}

/// Takes a step of the loading of a folder whose files are in memory.
fn step_in(loading: Loading, alloc: Global, files: &mut Vec<NamedFile>) -> Result<Loaded, LoadFault>
    requires { (folder : FolderOf) × LoadsIn folder files.old.items loading }
    ensures goes_on { IfOk result (λ loaded. (folder : FolderOf)
        → LoadsIn folder files.old.items loading
        → LoadsOnIn folder files.new.items (steps_left loading) loaded) }
    ensures fault { IfErr result (λ e. (folder : FolderOf) → LoadsIn folder files.old.items loading
        → IfSome (load_cause e) (IsRefused folder)) }
    ensures memory { IfErr result (λ e. load_cause e ≡ None → e ≡ LoadFault.NoMemory) }
{
    if let Some(url) = loading.next_url() {
        let file = take_file(alloc, files, url);
        return match loading.begin(file) {
            Ok(loading) => Ok(Loaded::On(loading)),
            Err(fault) => Err(fault),
        };
    }
    if loading.wants() {
        return match loading.feed(&[]) {
            Ok(loading) => Ok(Loaded::On(loading)),
            Err(fault) => Err(fault),
        };
    }
    loading.step(alloc)
}

impl Catalog {
    /// Returns the tables that a folder means, or the one cause why it is refused: the metadata's, or that of the first table, in the order of
    /// the metadata, that is refused. Files that no table names are ignored; of two files with one name the first counts.
    pub fn load(
        alloc: Global,
        limits: Limits,
        meta: Vec<u8>,
        files: Vec<NamedFile>,
    ) -> Result<Catalog, LoadFault>
        ensures tables { IfOk result
            (λ catalog. Means (folder_view limits meta.items files.items) catalog) }
        ensures fault { IfErr result
            (λ e. IfSome (load_cause e) (IsRefused (folder_view limits meta.items files.items))) }

        // Only out of memory has no cause.
        ensures memory { IfErr result (λ e. load_cause e ≡ None → e ≡ LoadFault.NoMemory) }
    {
        let mut loading = match Loading::start(alloc, limits, meta) {
            Ok(loading) => loading,
            Err(fault) => return Err(fault),
        };
        let mut files = files;
        loop {
            match step_in(loading, alloc, &mut files) {
                Ok(Loaded::On(on)) => loading = on,
                Ok(Loaded::Over(catalog)) => return Ok(catalog),
                Err(fault) => return Err(fault),
            }
        }
    }

    pub fn limits(&self) -> &Limits
        ensures { limits_view result.now ≡ self.now.limits }
    {
        &self.limits
    }

    /// Returns the tables, in the order of the metadata.
    pub fn tables(&self) -> &[Table]
        ensures { result.now ≡ self.now.tables }
    {
        self.tables.as_slice()
    }

    /// Returns the first table of a name.
    pub fn table(&self, name: &str) -> Option<&Table>
        ensures { option_copied result
            ≡ find (λ table. bytes_eq table.schema.name name.now) self.now.tables }
    {
        self.tables.iter().find(|table| table.name() == name)
    }

    /// Returns the tables as what is left of them, which is dropped in parts.
    pub fn into_remains(self, alloc: Global) -> Remains
        ensures { result ≡ parts_of_tables self.tables }
    {
        Remains::of_tables(alloc, self.tables)
    }
}
