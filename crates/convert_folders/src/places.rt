//! The names of a folder, and those that its files get if they are converted.
use std::alloc::{AllocError, Global};
use std::fs;
use std::io::{self, ErrorKind};

/// The ends of the names of files that are converted, after their last points.
const ENDS: [&str; 4] = ["csv", "tsv", "txt", "tab"];

/// The most characters of a name before `.csv`.
const MOST_NAME: usize = 120;

/// Returns a name without its end, if it is that of a file that is converted.
fn stem_of(name: &str) -> Option<&str> {
    let (stem, end) = name.rsplit_once('.')?;
    for other in &ENDS {
        if end.eq_ignore_ascii_case(other) {
            return Some(stem);
        }
    }
    None
}

/// Returns the name of a table without `.csv`.
pub(crate) fn table_of(name: &str) -> &str {
    match name.strip_suffix(".csv") {
        Some(table) => table,
        None => name,
    }
}

/// Returns a character that a name may have, or `_` in the place of any other.
fn name_char(c: char) -> char {
    if c.is_ascii_alphanumeric() || c == '-' {
        c
    } else {
        '_'
    }
}

/// Returns the name that a file gets: letters, digits, `_` and `-`, a letter first, and a number if an earlier file has it.
fn name_for(alloc: Global, stem: &str, names: &[(String, String)]) -> Result<String, AllocError> {
    let begins = match stem.as_bytes().first() {
        Some(first) => first.is_ascii_alphabetic(),
        None => false,
    };
    let front = if begins { "" } else { "t_" };
    let made: String = stem.chars().take(MOST_NAME).map(name_char).collect(alloc)?;
    let stem = made.as_str();
    let name = format!(in alloc; "{front}{stem}.csv")?;
    if !is_taken(names, name.as_str()) {
        return Ok(name);
    }
    for number in 2..=names.len().saturating_add(1) {
        let other = format!(in alloc; "{front}{stem}_{number}.csv")?;
        if !is_taken(names, other.as_str()) {
            return Ok(other);
        }
    }
    Ok(name)
}

/// Returns true if an earlier file has the name.
fn is_taken(names: &[(String, String)], name: &str) -> bool {
    names.iter().any(|pair| pair.1.as_str() == name)
}

/// Returns the names of a folder, in the order of their bytes. A name that is not UTF-8 is passed.
pub fn names_in(rt: &HostRuntime, folder: &str) -> io::Result<Vec<String>> {
    let mut names = Vec::new(rt.alloc());
    let mut end = Ok(());
    for entry in fs::read_dir(rt, folder)? {
        let pushed = match entry {
            Ok(entry) => push_name(&mut names, entry.file_name()),
            Err(error) => match error.kind() {
                ErrorKind::InvalidFilename => Ok(()),
                _ => Err(error),
            },
        };
        // the first fault counts; the folder is read to its end
        end = end.and(pushed);
    }
    end?;
    names.as_mut_slice().sort_unstable();
    Ok(names)
}

/// Adds a name.
fn push_name(names: &mut Vec<String>, name: &str) -> io::Result<()> {
    let name = String::from_str(*names.allocator(), name)?;
    names.push(name)?;
    Ok(())
}

/// Returns the files of a folder that are converted, in the order of their names, each with the name that it gets.
pub(crate) fn tables_in(rt: &HostRuntime, folder: &str) -> io::Result<Vec<(String, String)>> {
    let mut names: Vec<(String, String)> = Vec::new(rt.alloc());
    for file in names_in(rt, folder)? {
        if let Some(stem) = stem_of(file.as_str())
            && !file.starts_with('.')
        {
            let name = name_for(rt.alloc(), stem, names.as_slice())?;
            names.push((file, name)).or(Err(AllocError))?;
        }
    }
    Ok(names)
}
