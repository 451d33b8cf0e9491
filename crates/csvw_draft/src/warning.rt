//! What the publisher of files should look at.
use crate::told::tell;
use diagnostics::{Line, cut};
use draft_warnings::{file_of, is_said, push_warning};
use schema_inference::Guess;
use std::io;

/// Reports what the publisher of files should look at, a line for each warning, and one for all of a file that are said together.
pub fn warn_of(rt: &HostRuntime, guess: &Guess, names: &[String]) -> io::Result<()> {
    let mut lines = Line::new(rt.alloc());
    let all = guess.warnings.as_slice();
    for (place, warning) in all.iter().enumerate() {
        if let Some(name) = names.get(file_of(warning))
            && !is_said(all, place, warning)
        {
            lines.push("warning: ");
            lines.push_made(cut(rt.alloc(), name.as_str()));
            lines.push(": ");
            push_warning(&mut lines, warning, guess, name.as_str());
            lines.push("\n");
        }
    }
    tell(rt, &lines)
}
