//! The files that are left out of a draft, and what helps.
use crate::folder::file_in;
use crate::status::{DONE, REFUSED};
use crate::told::{no_memory, refuse, tell};
use csv_index::TextFault;
use diagnostics::{Line, Report, cut, refuse_file};
use draft_args::DraftOptions;
use schema_inference::{Guess, LeftOut, LeftOutCause};
use std::io;
use table_store::NamedFile;

/// Appends the line of a file that is left out, if it is not refused.
fn push_left_out(lines: &mut Line, cause: LeftOutCause, name: &str) {
    let hint = match cause {
        LeftOutCause::NotUrl => {
            ": left out: a file that is served is called by a letter, then letters, digits, `_` and `-`, then .csv: rename it"
        }
        LeftOutCause::ManyColumns { .. } => ": left out: ",
        _ => return,
    };
    lines.push("warning: ");
    lines.push_made(cut(lines.alloc, name));
    lines.push(hint);
    if let LeftOutCause::ManyColumns { columns } = cause {
        lines.push_number(columns);
        lines.push(" columns, and 256 are served at most: mlr --csv cut -o -f A,B takes some");
    }
    lines.push("\n");
}

/// Reports the files that are left out and not refused.
pub fn warn_of_left_out(
    rt: &HostRuntime,
    left_out: &[LeftOut],
    names: &[String],
) -> io::Result<()> {
    let mut lines = Line::new(rt.alloc());
    for left in left_out {
        if let Some(name) = names.get(left.file) {
            push_left_out(&mut lines, left.cause, name.as_str());
        }
    }
    tell(rt, &lines)
}

/// Reports a file of a folder that is refused, and what helps. It is no table for a fault, or else too large.
fn refuse_one(
    rt: &HostRuntime,
    folder: &str,
    name: &str,
    fault: Option<TextFault>,
) -> io::Result<u8> {
    let bytes = match fault {
        Some(_) => file_in(rt, folder, name)?,
        None => Vec::new(rt.alloc()),
    };
    let name = String::from_str(rt.alloc(), name)?;
    let mut report = Report::new(rt.alloc());
    refuse_file(&mut report, &NamedFile { name, bytes }, fault);
    if report.is_short {
        return Err(no_memory());
    }
    refuse(rt, report.lines.as_slice(), &report.helps)
}

/// Returns why a file is refused that is left out, or `None` if it is not refused. It is no table for a fault, or else too large.
fn refusal_of(cause: LeftOutCause) -> Option<Option<TextFault>> {
    match cause {
        LeftOutCause::NoTable { fault } => Some(Some(fault)),
        LeftOutCause::TooLarge => Some(None),
        _ => None,
    }
}

/// Reports the files that are refused, and returns the exit status: that of a refusal, if nothing is drafted for them.
pub fn refuse_files(
    rt: &HostRuntime,
    asks: &DraftOptions<'_>,
    names: &[String],
    guess: &Guess,
) -> io::Result<u8> {
    let mut refused: usize = 0;
    for left in &guess.left_out {
        if let Some(fault) = refusal_of(left.cause)
            && let Some(name) = names.get(left.file)
        {
            refused = refused.saturating_add(1);
            refuse_one(rt, asks.folder, name.as_str(), fault)?;
        }
    }
    if refused == 0 || asks.skip {
        return Ok(DONE);
    }
    if !guess.schemas.is_empty() {
        let count = names.len();
        eprintln!(rt; "refused: {refused} of {count} files: --skip-refused drafts the others")?;
    }
    Ok(REFUSED)
}
