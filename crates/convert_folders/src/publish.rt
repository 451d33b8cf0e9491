//! A folder that appears whole by one renaming, or not at all.
ghost use Rattle.convert_folders.specs.Conversions.{IsServedConversion};

use crate::rules::ColumnRule;
use crate::tables::{Table, Writing, write_folder};
use draft_args::Conversion;
use schema_inference::DraftFault;
use served_folders::METADATA;
use std::fs::{self, File, OpenFile};
use std::io::{self, Write};
use std::process;
use std::rt::Files;

/// The exit status if all was done.
const DONE: u8 = 0;

/// The exit status of a refused folder or file.
pub(crate) const REFUSED: u8 = 1;

/// Writes a new file, and has it reach its device.
fn write_file(rt: &HostRuntime, path: &str, bytes: &[u8]) -> io::Result<()> {
    let mut file = File::create_new(rt, path)?;
    file.write_all(bytes)?;
    file.sync_all()
}

/// Returns the path of a name in a folder.
pub(crate) fn path_in(rt: &HostRuntime, folder: &str, name: &str) -> io::Result<String> {
    Ok(format!(in rt.alloc(); "{folder}/{name}")?)
}

/// A new folder that is not whole yet: its path beside its place.
#[derive(Drop)]
pub struct Half {
    path: String,
    /// Nothing is written.
    is_dry: bool,
}

impl Half {
    /// Makes a folder without files under another name beside a path. If nothing is to be written, nothing is made.
    pub fn new(rt: &HostRuntime, out: &str, is_dry: bool) -> io::Result<Half> {
        let number = process::id(rt.process());
        let whole = out.trim_end_matches('/');
        let path = format!(in rt.alloc(); "{whole}.{number}.half")?;
        if !is_dry {
            rt.create_dir(path.as_str())?;
        }
        Ok(Half { path, is_dry })
    }

    /// Makes a file, unless nothing is to be written.
    pub fn create(&self, rt: &HostRuntime, name: &str) -> io::Result<Option<File>> {
        if self.is_dry {
            return Ok(None);
        }
        Ok(Some(File::create_new(rt, path_in(rt, self.path.as_str(), name)?.as_str())?))
    }

    /// Removes the files of the folder.
    pub fn clear(&self, rt: &HostRuntime) -> io::Result<()> {
        if self.is_dry {
            return Ok(());
        }
        fs::remove_dir_all(rt, self.path.as_str())?;
        rt.create_dir(self.path.as_str())
    }

    /// Removes the folder.
    pub fn remove(self, rt: &HostRuntime) {
        if !self.is_dry {
            let _ = fs::remove_dir_all(rt, self.path.as_str());
        }
    }

    /// Writes the metadata, and gives the folder its name.
    fn finish(&self, rt: &HostRuntime, out: &str, metadata: &[u8]) -> io::Result<()> {
        let path = self.path.as_str();
        write_file(rt, path_in(rt, path, METADATA)?.as_str(), metadata)?;
        fs::open(rt, path)?.sync_all()?;
        rt.rename(path, out.trim_end_matches('/'))
    }

    /// Writes the metadata, with which the folder is served, and gives it its name. If a step fails, the folder is removed.
    fn publish(self, rt: &HostRuntime, out: &str, metadata: &[u8]) -> io::Result<()>
        requires { IsServedConversion metadata.now }
    {
        match self.finish(rt, out, metadata) {
            Ok(()) => Ok(()),
            Err(error) => {
                self.remove(rt);
                Err(error)
            }
        }
    }
}

/// Reports why nothing is written, and returns the exit status.
fn refuse_for(rt: &HostRuntime, line: &str) -> io::Result<u8> {
    eprintln!(rt; "refused: {line}").and(Ok(REFUSED))
}

/// Reports why there is no metadata, and returns the exit status.
fn refuse_metadata(rt: &HostRuntime, fault: &DraftFault) -> io::Result<u8> {
    match fault {
        DraftFault::NoMemory => Err(io::Error::from(io::ErrorKind::OutOfMemory)),
        DraftFault::NoTables => refuse_for(rt, "no file of the folder is a table"),
        DraftFault::TooManyTables => refuse_for(rt, "accepted: 256 files at most"),
        DraftFault::Refused(cause) => refuse_for(rt, cause.text(rt.alloc())?.as_str()),
    }
}

/// Writes the tables of a folder and their metadata, and gives it its name, or removes it if nothing is to be written. Returns the exit status.
pub(crate) fn publish<'x>(
    rt: &HostRuntime,
    asks: &'x Conversion<'x>,
    rules: &'x [ColumnRule<'x>],
    half: Half,
    tables: &mut [Table],
) -> io::Result<u8> {
    let by = Writing {
        asks: &*asks,
        rules: &*rules,
        half: &half,
    };
    match write_folder(rt, by, tables) {
        Ok(Ok(text)) if !asks.dry_run => {
            let out = asks.out;
            half.publish(rt, out, text.as_slice())?;
            if !asks.json {
                println!(rt; "wrote {out}")?;
            }
            Ok(DONE)
        }
        Ok(made) => {
            half.remove(rt);
            match made {
                Ok(_) => Ok(DONE),
                Err(fault) => refuse_metadata(rt, &fault),
            }
        }
        Err(error) => {
            half.remove(rt);
            Err(error)
        }
    }
}
