//! The CSV files of a folder on a disk.
use convert_folders::names_in;
use diagnostics::cut;
use served_folders::read_plain;
use std::alloc::{AllocError, Global};
use std::io;
use std::rt::Files;

/// A file of at least this many bytes is announced before it is read.
const LONG: u64 = 50_000_000;

/// Returns true if a name is that of a CSV file, in letters of either case.
pub fn is_csv(name: &str) -> bool {
    match name.as_bytes().last_chunk::<4>() {
        Some(end) => end.eq_ignore_ascii_case(b".csv"),
        None => false,
    }
}

/// The ends of the names of files that may be tables, but are none as they are, and what helps.
const OTHER_ENDS: [(&str, &str); 9] = [
    ("tsv", "csvformat -t makes it a CSV file"),
    ("tab", "csvformat -t makes it a CSV file"),
    ("gz", "gunzip unpacks it"),
    ("bz2", "bunzip2 unpacks it"),
    ("xz", "unxz unpacks it"),
    ("zip", "unzip unpacks it"),
    ("xlsx", "save it as CSV UTF-8"),
    ("xls", "save it as CSV UTF-8"),
    ("ods", "save it as CSV UTF-8"),
];

/// Returns what helps with a file that may be a table, by the end of its name.
fn help_for(name: &str) -> Option<&'static str> {
    let (_, end) = name.rsplit_once('.')?;
    for (other, help) in &OTHER_ENDS {
        if end.eq_ignore_ascii_case(other) {
            return Some(*help);
        }
    }
    None
}

/// Reports that a name is left out, and why.
fn warn(rt: &HostRuntime, name: &str, cause: &str, help: &str) -> io::Result<()> {
    let name = cut(rt.alloc(), name)?;
    eprintln!(rt; "warning: {name}: left out: {cause}{help}")
}

/// Reports that a name is left out which is none of a CSV file, if it may be that of a table or is that of a folder.
fn warn_left_out(rt: &HostRuntime, folder: &str, name: &str) -> io::Result<()> {
    if let Some(help) = help_for(name) {
        return warn(rt, name, "its name does not end in .csv: ", help);
    }
    let path = path_in(rt.alloc(), folder, name)?;
    match rt.metadata(path.as_str()) {
        Ok(found) if found.is_dir() => warn(rt, name, "a folder, whose files are not read", ""),
        _ => Ok(()),
    }
}

/// Returns the path of a name in a folder.
pub fn path_in(alloc: Global, folder: &str, name: &str) -> Result<String, AllocError> {
    format!(in alloc; "{folder}/{name}")
}

/// Announces a long file of that many bytes before it is read.
fn tell_long(rt: &HostRuntime, name: &str, length: u64) {
    if length > LONG
        && let Ok(name) = cut(rt.alloc(), name)
    {
        let _ = eprintln!(rt; "reading {name}, {} MB", length / 1_000_000);
    }
}

/// Returns the bytes of the plain file of a name in a folder; of a file above the limit its front alone. What is no plain file is an invalid input.
pub fn file_in(rt: &HostRuntime, folder: &str, name: &str) -> io::Result<Vec<u8>> {
    let path = path_in(rt.alloc(), folder, name)?;
    read_plain(rt.alloc(), rt, path.as_str(), true)
}

/// Reports the names of a folder that are none of CSV files, but may be those of tables.
fn warn_of_others(rt: &HostRuntime, folder: &str, names: &[String]) -> io::Result<()> {
    for name in names {
        if !is_csv(name.as_str()) && !name.starts_with('.') {
            warn_left_out(rt, folder, name.as_str())?;
        }
    }
    Ok(())
}

/// Returns true if a name of a folder is that of a plain file; reports it if it is none. If someone looks on, it tells of a long one.
fn is_plain_file(rt: &HostRuntime, folder: &str, name: &str, tells: bool) -> io::Result<bool> {
    let path = path_in(rt.alloc(), folder, name)?;
    let found = rt.metadata(path.as_str())?;
    if found.is_file() && tells {
        tell_long(rt, name, found.len());
    }
    if found.is_file() {
        Ok(true)
    } else {
        warn(rt, name, "no plain file", "").and(Ok(false))
    }
}

/// Returns the names of the CSV files of a folder, in order. What is no plain file is reported, and left out. If someone looks on, it tells of long ones.
pub fn csv_names(rt: &HostRuntime, folder: &str, tells: bool) -> io::Result<Vec<String>> {
    let names = names_in(rt, folder)?;
    warn_of_others(rt, folder, names.as_slice())?;
    let mut files = Vec::new(rt.alloc());
    for name in names {
        if is_csv(name.as_str()) && is_plain_file(rt, folder, name.as_str(), tells)? {
            files.push(name)?;
        }
    }
    Ok(files)
}
