//! What the program prints: a line on standard error for each finding, and the texts that were asked for.
use crate::status::{DONE, REFUSED};
use diagnostics::Line;
use std::io::{self, ErrorKind};
use table_store::LoadFault;

/// What is said after a cause that `explain` says more of.
pub const SEE_EXPLAIN: &str = ": see csvw_draft explain FOLDER";

/// Returns that memory ran out.
pub fn no_memory() -> io::Error {
    io::Error::from(ErrorKind::OutOfMemory)
}

/// Reports lines that were written.
pub fn tell(rt: &HostRuntime, lines: &Line) -> io::Result<()> {
    if lines.is_short {
        return Err(no_memory());
    }
    rt.eprint(lines.text.as_str())
}

/// Reports why a folder is refused, and returns the exit status.
pub fn refuse_for(rt: &HostRuntime, line: &str) -> io::Result<u8> {
    eprintln!(rt; "refused: {line}").and(Ok(REFUSED))
}

/// Reports a cause for which a folder is refused, and what is said after it, and returns the exit status.
pub fn refuse_cause(rt: &HostRuntime, cause: &LoadFault, after: &str) -> io::Result<u8> {
    let mut line = Line::new(rt.alloc());
    line.push("refused: ");
    line.push_made(cause.text(rt.alloc()));
    line.push(after);
    line.push("\n");
    tell(rt, &line).and(Ok(REFUSED))
}

/// Does what [`refuse_for`] does, for several lines, and reports what helps.
pub fn refuse(rt: &HostRuntime, lines: &[String], helps: &Line) -> io::Result<u8> {
    for line in lines {
        refuse_for(rt, line.as_str())?;
    }
    tell(rt, helps).and(Ok(REFUSED))
}

/// Prints a text, and returns the exit status.
pub fn print_text(rt: &HostRuntime, text: &[u8]) -> io::Result<u8> {
    rt.write_all(text).and(Ok(DONE))
}
