//! What a conversion reports: a line for each thing, or the same as JSON (RFC 8259).
use diagnostics::Line;
use json::Writer;
use std::alloc::Global;
use std::io::{self, ErrorKind};
use std::mem::replace;
use text_escapes::escaped;

/// What an entry says.
#[derive(Clone, Copy)]
pub(crate) enum Status {
    /// Something is changed.
    Changed,
    /// Something would be changed if it were asked for.
    Proposed,
    /// The publisher should look at what is written.
    Warned,
    /// The file is not converted.
    Refused,
}

/// What an entry speaks of.
#[derive(Clone, Copy)]
pub(crate) struct About<'a> {
    pub(crate) status: Status,
    /// The name of its file.
    pub(crate) file: &'a str,
    /// The header cell of its column, if it speaks of one.
    pub(crate) column: Option<&'a str>,
    /// How many cells or lines there are, and the first line.
    pub(crate) count: usize,
    pub(crate) line: usize,
}

impl<'a> About<'a> {
    /// Returns what an entry of a whole file speaks of.
    pub(crate) fn file(status: Status, file: &'a str) -> About<'a> {
        About {
            status,
            file,
            column: None,
            count: 0,
            line: 0,
        }
    }
}

/// The entries of a report, as they are printed. If memory runs out that is kept in it, so that an entry has no failure of its own.
#[derive(Drop)]
pub(crate) struct Report {
    is_json: bool,
    json: Writer,
    /// The lines on standard output, and those on standard error.
    lines: Line,
    refusals: Line,
    /// The message of the next entry, and the option or the line of `--columns` that does what it proposes.
    pub(crate) message: Line,
    pub(crate) option: Line,
}

/// Returns the word of a status.
fn word_of(status: Status) -> &'static str {
    match status {
        Status::Changed => "changed",
        Status::Proposed => "proposed",
        Status::Warned => "warning",
        Status::Refused => "refused",
    }
}

/// Appends a text after another, with its control characters written out.
fn push_escaped(line: &mut Line, before: &str, text: &str) {
    line.push(before);
    line.push_made(escaped(line.alloc, text));
}

/// Appends an entry to the lines.
fn push_entry(line: &mut Line, about: About<'_>, message: &str, option: &str) {
    line.push(word_of(about.status));
    push_escaped(line, ": ", about.file);
    if let Some(column) = about.column {
        push_escaped(line, ": column \"", column);
        line.push("\"");
    }
    push_escaped(line, ": ", message);
    if !option.is_empty() {
        push_escaped(line, ": ", option);
    }
    line.push("\n");
}

impl Report {
    /// Returns a report that has nothing.
    pub(crate) fn new(alloc: Global, is_json: bool) -> Report {
        let mut json = Writer::new(Vec::new(alloc));
        let mut lines = Line::new(alloc);
        lines.is_short = json.begin_array().is_err();
        Report {
            is_json,
            json,
            lines,
            refusals: Line::new(alloc),
            message: Line::new(alloc),
            option: Line::new(alloc),
        }
    }

    /// Appends a text to the message.
    pub(crate) fn say(&mut self, text: &str) {
        self.message.push(text);
    }

    /// Appends a number to the message, and a text after it.
    pub(crate) fn say_count(&mut self, count: usize, text: &str) {
        self.message.push_number(count);
        self.message.push(text);
    }

    /// Writes a member that is a text.
    fn put_text(&mut self, name: &str, text: &str) {
        self.lines.is_short |= self.json.key(name).is_err() || self.json.string(text).is_err();
    }

    /// Writes a member that is a number.
    fn put_number(&mut self, name: &str, number: usize) {
        self.lines.is_short |= self.json.key(name).is_err()
            || self.json.u64(number as u64).is_err();
    }

    /// Writes an entry as JSON.
    fn put_entry(&mut self, about: About<'_>, message: &str, option: &str) {
        self.lines.is_short |= self.json.begin_object().is_err();
        self.put_text("file", about.file);
        self.put_text("status", word_of(about.status));
        if let Some(column) = about.column {
            self.put_text("column", column);
        }
        self.put_text("message", message);
        if !option.is_empty() {
            self.put_text("option", option);
        }
        self.put_number("count", about.count);
        if about.line > 0 {
            self.put_number("line", about.line);
        }
        self.lines.is_short |= self.json.end_object().is_err();
    }

    /// Ends an entry, whose message is written.
    pub(crate) fn end(&mut self, about: About<'_>) {
        let alloc = self.message.alloc;
        let message = replace(&mut self.message, Line::new(alloc));
        let option = replace(&mut self.option, Line::new(alloc));
        self.lines.is_short |= message.is_short || option.is_short;
        let (message, option) = (message.text.as_str(), option.text.as_str());
        if self.is_json {
            self.put_entry(about, message, option);
        } else if let Status::Refused = about.status {
            push_entry(&mut self.refusals, about, message, option);
        } else {
            push_entry(&mut self.lines, about, message, option);
        }
    }

    /// Prints the entries as JSON.
    fn print_json(&mut self, rt: &HostRuntime) -> io::Result<()> {
        let json = replace(&mut self.json, Writer::new(Vec::new(rt.alloc())));
        let mut text = json.into_inner();
        text.push(b'\n')?;
        rt.write_all(text.as_slice())
    }

    /// Prints the entries.
    pub(crate) fn print(&mut self, rt: &HostRuntime) -> io::Result<()> {
        if self.lines.is_short || self.refusals.is_short || self.json.end_array().is_err() {
            return Err(io::Error::from(ErrorKind::OutOfMemory));
        }
        if self.is_json {
            return self.print_json(rt);
        }
        rt.write_all(self.lines.text.as_bytes())?;
        rt.eprint(self.refusals.text.as_str())
    }
}
