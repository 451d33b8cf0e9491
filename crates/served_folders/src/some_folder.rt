//! The loading of a folder of which only that much is known: there is one whose files are as they came from a device.
ghost use Rattle.std.specs.Prelude.{◌≡◌, ◌<◌, None, IfErr, IfOk, IfSome, IsSome};
ghost use Rattle.table_store.specs.Fault.{load_cause};
ghost use Rattle.table_store.specs.FolderSteps.{next_url, steps_left, waiting_url};
ghost use Rattle.served_folders.specs.Folders.{RefusesTaken};
ghost use Rattle.served_folders.specs.Steps.{IsLoadingTaken, TablesGoOn};

use csvw_meta::Limits;
use std::alloc::Global;
use table_store::{FileStart, LoadFault, Loaded, Loading};

/// Begins to load a folder that has this metadata.
pub(crate) fn start(alloc: Global, meta: Vec<u8>) -> Result<Loading, LoadFault>
    ensures loads { IfOk result IsLoadingTaken }
    ensures fault { IfErr result (λ e. IfSome (load_cause e) (RefusesTaken None)) }
{
    match Loading::start(alloc, Limits::greatest(), meta) {
        Ok(loading) => Ok(loading),
        Err(fault) => Err(fault),
    }
}

/// Begins the next table, of whose file that is known.
pub(crate) fn begin(loading: Loading, file: FileStart) -> Result<Loading, LoadFault>
    requires next { IsSome (next_url loading) }
    requires loads { IsLoadingTaken loading }
    ensures goes_on { IfOk result (λ new.
        IsLoadingTaken new × (steps_left new < steps_left loading)) }
    ensures fault { IfErr result (λ e. IfSome (load_cause e) (RefusesTaken None)) }
{
    match loading.begin(file) {
        Ok(loading) => Ok(loading),
        Err(fault) => Err(fault),
    }
}

/// Gives the next bytes of the file of the table that is under way.
pub(crate) fn feed(loading: Loading, bytes: &[u8]) -> Result<Loading, LoadFault>
    requires wants { IsSome (waiting_url loading) }
    requires loads { IsLoadingTaken loading }
    ensures goes_on { IfOk result (λ new.
        IsLoadingTaken new × (steps_left new < steps_left loading)) }
    ensures fault { IfErr result (λ e. IfSome (load_cause e) (RefusesTaken None)) }
{
    match loading.feed(bytes) {
        Ok(loading) => Ok(loading),
        Err(fault) => Err(fault),
    }
}

/// Goes on with the table that is under way. Returns the catalog once all are read.
pub(crate) fn step(loading: Loading, alloc: Global) -> Result<Loaded, LoadFault>
    requires begun { next_url loading ≡ None }
    requires ready { waiting_url loading ≡ None }
    requires loads { IsLoadingTaken loading }
    ensures goes_on { IfOk result (TablesGoOn (steps_left loading)) }
    ensures fault { IfErr result (λ e. IfSome (load_cause e) (RefusesTaken None)) }
{
    match loading.step(alloc) {
        Ok(Loaded::On(loading)) => Ok(Loaded::On(loading)),
        Ok(Loaded::Over(catalog)) => Ok(Loaded::Over(catalog)),
        Err(fault) => Err(fault),
    }
}
