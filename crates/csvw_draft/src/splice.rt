//! Where values are in a JSON text, and texts that are put between them.
use std::alloc::{AllocError, Global};
use std::slice::from_ref;

/// Returns the offset after white space.
fn after_white(json: &[u8], at: usize) -> usize {
    for place in at..json.len() {
        if !json[place].is_ascii_whitespace() {
            return place;
        }
    }
    json.len()
}

/// Returns the offset after a text, from the offset after its first double quote.
fn after_text(json: &[u8], at: usize) -> usize {
    let mut is_escaped = false;
    for place in at..json.len() {
        match json[place] {
            _ if is_escaped => is_escaped = false,
            b'\\' => is_escaped = true,
            b'"' => return place + 1,
            _ => {}
        }
    }
    json.len()
}

/// Returns the offset after the value that begins at an offset.
fn after_value(json: &[u8], at: usize) -> usize {
    let mut depth: usize = 0;
    let mut quoted_to = at;
    for place in at..json.len() {
        if place < quoted_to {
            continue;
        }
        match json[place] {
            b'"' => quoted_to = after_text(json, place + 1),
            b'{' | b'[' => depth = depth.saturating_add(1),
            b'}' | b']' => depth = depth.saturating_sub(1),
            _ => {}
        }
        if depth == 0 {
            let end = quoted_to.max(place + 1);
            match json.get(end) {
                Some(byte)
                    if !matches!(*byte, b',' | b'}' | b']' | b':') && !byte.is_ascii_whitespace() =>
                    {}
                _ => return end,
            }
        }
    }
    json.len()
}

/// The items of an array or an object, one after another: of an object these are names and values in turn. Of a text that is no JSON they are of no use, and take no harm.
#[derive(Clone, Copy)]
pub(crate) struct Items<'a> {
    json: &'a [u8],
    at: usize,
}

impl<'a> Items<'a> {
    /// Returns the items of what begins at an offset.
    pub(crate) fn of(json: &'a [u8], open: usize) -> Items<'a> {
        let at = after_white(json, open.saturating_add(1));
        Items { json, at }
    }

    /// Returns the offsets at which the next item begins and ends; `None` after the last.
    pub(crate) fn next_item(&mut self) -> Option<(usize, usize)> {
        let start = self.at;
        match self.json.get(start) {
            None | Some(b']' | b'}') => return None,
            Some(_) => {}
        }
        let end = after_value(self.json, start);
        let next = after_white(self.json, end);
        self.at = match self.json.get(next) {
            Some(b',' | b':') => after_white(self.json, next.saturating_add(1)),
            _ => next,
        };
        Some((start, end))
    }
}

/// Returns the offset of the value of a member, given the name between double quotes, of the object that begins at an offset.
pub(crate) fn member_at(json: &[u8], open: usize, name: &[u8]) -> Option<usize> {
    let mut items = Items::of(json, open);
    let mut found = None;
    for _member in 0..json.len() {
        let Some((start, end)) = items.next_item() else {
            break;
        };
        let Some((value, _)) = items.next_item() else {
            break;
        };
        if json.get(start..end) == Some(name) {
            found = Some(value);
        }
    }
    found
}

/// A JSON text into which others are put, in the order of their offsets. If memory runs out that is kept in it, so that a piece has no failure of its own.
#[derive(Drop)]
pub(crate) struct Spliced<'a> {
    pub(crate) alloc: Global,
    pub(crate) json: &'a [u8],
    /// How much of it is written.
    from: usize,
    made: Vec<u8>,
    pub(crate) is_short: bool,
}

impl<'a> Spliced<'a> {
    /// Returns a text of which nothing is written yet.
    pub(crate) fn of(alloc: Global, json: &'a [u8]) -> Spliced<'a> {
        Spliced {
            alloc,
            json,
            from: 0,
            made: Vec::new(alloc),
            is_short: false,
        }
    }

    /// Writes bytes.
    pub(crate) fn push(&mut self, bytes: &[u8]) {
        self.is_short |= self.made.extend_from_slice(bytes).is_err();
    }

    /// Writes the text up to an offset.
    pub(crate) fn copy_to(&mut self, at: usize) {
        let json = self.json;
        if let Some(between) = json.get(self.from..at) {
            self.push(between);
            self.from = at;
        }
    }

    /// Writes a text that was made for it, with a line break and spaces in the place of each line feed.
    pub(crate) fn push_made(&mut self, made: Result<Vec<u8>, AllocError>, line_break: &[u8]) {
        let Ok(text) = made else {
            self.is_short = true;
            return;
        };
        for byte in &text {
            if *byte == b'\n' {
                self.push(line_break);
            } else {
                self.push(from_ref(byte));
            }
        }
    }

    /// Returns the whole text.
    pub(crate) fn finish(mut self) -> Result<Vec<u8>, AllocError> {
        let end = self.json.len();
        self.copy_to(end);
        if self.is_short {
            return Err(AllocError);
        }
        Ok(self.made)
    }
}
