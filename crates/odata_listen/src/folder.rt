//! A folder that is watched, and reloaded when it changed. Its metadata and the files that this names are looked at, and nothing else.
use crate::older_tables::OlderTables;
use crate::watch::{FolderLook, hand_over, is_final, look_of, pause_after, size_of};
use odata_hub::Hub;
use served_folders::{Disk, DiskLoaded, DiskLoading, FolderFault, Folders, METADATA, look};
use service_log::{LoadSummary, Log};
use std::alloc::AllocError;
use std::fs::{File, Metadata};
use std::io::ErrorKind;
use std::os::unix::fs::MetadataExt;
use std::rt::{Clock, Files};
use std::time::Instant;
use table_store::Catalog;

/// The most loads at the start, while the folder changes under each.
const MOST_LOADS: u32 = 10;

/// A load that is under way: when it began, and what is left of it.
#[derive(Drop)]
struct Load {
    start: Option<Instant>,
    loading: DiskLoading<File>,
}

/// What came of a load, and when it began.
#[derive(Drop)]
struct Taken {
    start: Option<Instant>,
    catalog: Result<Catalog, FolderFault>,
}

/// A folder, with its states as it was taken last and at the last look.
#[derive(Drop)]
pub struct Folder<'a> {
    name: &'a str,
    /// Whether a link may stand in the place of a file.
    follows: bool,
    /// The state of the metadata as it was read last, and the files that it named.
    metadata: String,
    files: Vec<String>,
    taken: String,
    seen: String,
    /// The last reload came to nothing since a device failed or memory ran out. That was reported, and it is tried again until the folder is as it was loaded.
    wants: bool,
    /// The looks from the last failure to the next try, and how many of them are left.
    pause: u32,
    left: u32,
    /// The load that is under way, if there is one.
    load: Option<Load>,
    /// Handles of the tables that are served, and of those before them.
    pub older: OlderTables,
}

/// Returns the milliseconds since `start`.
fn millis_since(rt: &HostRuntime, start: Option<Instant>) -> u64 {
    match (start, Instant::now(rt)) {
        (Some(start), Ok(now)) => u64::try_from(now.duration_since(start).as_millis()).unwrap_or(0),
        _ => 0,
    }
}

/// Adds to a text what distinguishes one state of a file from another: its device and number, its length, and the times of its last write and change.
fn push_state(text: &mut String, found: &Metadata) -> Result<(), AllocError> {
    write!(
        text,
        "{} {} {} {} {} {} {}\n",
        found.dev(),
        found.ino(),
        found.len(),
        found.mtime(),
        found.mtime_nsec(),
        found.ctime(),
        found.ctime_nsec()
    )
}

impl<'a> Folder<'a> {
    ghost use Rattle.odata_listen.specs.Serving.{MayReload};

    /// Returns the folder as it is now, before it is loaded. If it `follows` links, one in the place of a file is that file; else it is none.
    pub fn new(rt: &HostRuntime, name: &'a str, follows: bool) -> Folder<'a> {
        let mut folder = Folder {
            name,
            follows,
            metadata: String::new(rt.alloc()),
            files: Vec::new(rt.alloc()),
            taken: String::new(rt.alloc()),
            seen: String::new(rt.alloc()),
            wants: false,
            pause: 0,
            left: 0,
            load: None,
            older: OlderTables::new(rt.alloc()),
        };
        folder.taken = folder.state(rt);
        folder
    }

    /// Adds the state of a file of the folder; of one that is not there, or can't be looked at, only that.
    fn push_file(&self, rt: &HostRuntime, file: &str, text: &mut String) -> Result<(), AllocError> {
        let folder = self.name;
        let path = format!(in rt.alloc(); "{folder}/{file}")?;
        match look(rt, path.as_str(), self.follows) {
            Ok(found) => push_state(text, &found),
            Err(error) if error.kind() == ErrorKind::NotFound => text.push_str("missing\n"),
            Err(_) => text.push_str("untold\n"),
        }
    }

    /// Reads the names of the files if the metadata is not as it was when they were read last. If it can't be read, they are read again at the next look.
    fn read_names(&mut self, rt: &HostRuntime, metadata: &str) -> Result<(), AllocError> {
        if self.metadata.as_str() == metadata {
            return Ok(());
        }
        let disk = Disk::new(rt).follow_links(self.follows);
        let Ok(files) = disk.names(rt.alloc(), self.name) else {
            self.metadata = String::new(rt.alloc());
            self.files = Vec::new(rt.alloc());
            return Ok(());
        };
        self.metadata = String::from_str(rt.alloc(), metadata)?;
        self.files = files;
        Ok(())
    }

    /// Returns the state of the metadata and of the files that it names.
    fn read_state(&mut self, rt: &HostRuntime) -> Result<String, AllocError> {
        let mut text = String::new(rt.alloc());
        self.push_file(rt, METADATA, &mut text)?;
        self.read_names(rt, text.as_str())?;
        for file in &self.files {
            self.push_file(rt, file.as_str(), &mut text)?;
        }
        Ok(text)
    }

    /// Returns the same; nothing if memory ran out.
    fn state(&mut self, rt: &HostRuntime) -> String {
        self.read_state(rt).unwrap_or(String::new(rt.alloc()))
    }

    /// Loads the folder at the start, anew while it changes under a load. Returns `None` if it changed under each of them.
    pub fn load(&mut self, rt: &HostRuntime) -> Option<Result<Catalog, FolderFault>> {
        for _try in 0..MOST_LOADS {
            let mut disk = Disk::new(rt).follow_links(self.follows);
            let loaded = disk.load(rt.alloc(), self.name);
            let after = self.state(rt);
            if self.taken == after {
                return Some(loaded);
            }
            self.taken = after;
        }
        None
    }

    /// Notes how a reload ended: one that failed is tried again after a pause, which doubles at each failure.
    fn note(&mut self, holds: bool, found: String) {
        if holds {
            self.taken = found;
            self.pause = 0;
        } else {
            self.pause = pause_after(self.pause);
        }
        self.left = self.pause;
        self.wants = !holds;
    }

    /// Ends a load that began at `start`: if the folder is as it was at the last look, the hub has its tables from now on. If a device failed or memory ran
    /// out, the folder counts as it was taken before, so that the next look finds it changed again.
    #[tactic(auto, using(crate::proofs::ServingLemmas::may_hand_over))]
    fn take_up(&mut self, rt: &HostRuntime, hub: &mut Hub, log: &mut Log<'_>, loaded: Taken)
        ensures { MayReload hub.old hub.new }
    {
        let Taken { start, catalog } = loaded;
        let size = size_of(&catalog, millis_since(rt, start));
        let after = self.state(rt);
        if look_of(&self.seen, &self.seen, &after) == FolderLook::Same {
            let end = hand_over(rt.alloc(), hub, &mut self.older, catalog);
            let holds = is_final(&end);
            if holds || !self.wants {
                log.reloaded(end.map(|()| size));
            }
            self.note(holds, after);
        }
    }

    /// Begins to load the folder.
    fn begin(&mut self, rt: &HostRuntime, hub: &mut Hub, log: &mut Log<'_>)
        ensures { MayReload hub.old hub.new }
    {
        let start = Instant::now(rt).ok();
        let mut disk = Disk::new(rt).follow_links(self.follows);
        match disk.begin(rt.alloc(), self.name) {
            Ok(loading) => self.load = Some(Load { start, loading }),
            Err(fault) => {
                let catalog = Err(fault);
                self.take_up(rt, hub, log, Taken { start, catalog });
            }
        }
    }

    /// Begins to load the folder, unless one load is under way or the pause after the last failure is not over.
    fn try_again(&mut self, rt: &HostRuntime, hub: &mut Hub, log: &mut Log<'_>)
        ensures { MayReload hub.old hub.new }
    {
        if self.load.is_some() {
            return;
        }
        if self.left > 1 {
            self.left -= 1;
            return;
        }
        self.begin(rt, hub, log);
    }

    /// Returns true if a load is under way, or older tables are being dropped.
    pub fn is_busy(&self) -> bool {
        self.load.is_some() || self.older.is_dropping()
    }

    /// Takes one step of the load that is under way, if there is one: opens a file, reads a piece or a window of it, reads the keys of a block of rows,
    /// or makes the summaries of some blocks.
    pub fn work(&mut self, rt: &HostRuntime, hub: &mut Hub, log: &mut Log<'_>)
        ensures { MayReload hub.old hub.new }
    {
        let Some(Load { start, loading }) = self.load.take() else {
            return;
        };
        let mut disk = Disk::new(rt).follow_links(self.follows);
        let catalog = match disk.step(rt.alloc(), loading) {
            Ok(DiskLoaded::On(loading)) => {
                self.load = Some(Load { start, loading });
                return;
            }
            Ok(DiskLoaded::Over(catalog)) => Ok(catalog),
            Err(fault) => Err(fault),
        };
        self.take_up(rt, hub, log, Taken { start, catalog });
    }

    /// Looks at the folder, and begins to load it if it changed and is as it was at the last look. A load that is under way is dropped if the folder changed since
    /// it began. Logs what the service counts, once a minute.
    pub fn look(&mut self, rt: &HostRuntime, hub: &mut Hub, log: &mut Log<'_>)
        ensures { MayReload hub.old hub.new }
    {
        let found = self.state(rt);
        let says = look_of(&self.taken, &self.seen, &found);
        self.seen = found;
        match says {
            FolderLook::Same => {
                self.load = None;
                self.wants = false;
                self.pause = 0;
                self.left = 0;
            }
            // what changed again may be mended
            FolderLook::Moves => {
                self.load = None;
                self.pause = 0;
                self.left = 0;
            }
            FolderLook::Changed => self.try_again(rt, hub, log),
        }
        log.each_second();
        log.flush();
    }
}
