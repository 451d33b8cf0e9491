//! The records of a text that may be uneven, for a look at their widths.

/// A record: the line in which it begins, counted from 1, its number of fields, its first byte and the byte after its last one.
#[derive(Clone, Copy)]
pub(crate) struct Record {
    pub(crate) line: usize,
    pub(crate) fields: usize,
    pub(crate) start: usize,
    pub(crate) end: usize,
}

/// The records of a text, one after another: a line break outside double quotes ends one.
#[derive(Clone, Copy)]
pub(crate) struct Records<'a> {
    bytes: &'a [u8],
    separator: u8,
    at: usize,
    line: usize,
}

impl<'a> Records<'a> {
    /// Returns the records of a text whose fields a byte separates.
    pub(crate) fn new(bytes: &'a [u8], separator: u8) -> Records<'a> {
        Records {
            bytes,
            separator,
            at: 0,
            line: 1,
        }
    }

    /// Returns the next record; `None` at the end of the text.
    pub(crate) fn next_record(&mut self) -> Option<Record> {
        let (start, line) = (self.at, self.line);
        let left = self.bytes.get(start..)?;
        if left.is_empty() {
            return None;
        }
        let mut fields: usize = 1;
        let mut quoted = false;
        let mut seen: usize = 0;
        let mut after: usize = left.len();
        for byte in left {
            if *byte == b'\n' {
                self.line = self.line.saturating_add(1);
                if !quoted {
                    after = seen.saturating_add(1);
                    break;
                }
            }
            if *byte == b'"' {
                quoted = !quoted;
            } else if *byte == self.separator && !quoted {
                fields = fields.saturating_add(1);
            }
            seen = seen.saturating_add(1);
        }
        self.at = start.saturating_add(after);
        let mut end = start.saturating_add(seen);
        if let Some(b'\r') = self.bytes.get(end.saturating_sub(1))
            && end > start
        {
            end = end.saturating_sub(1);
        }
        Some(Record {
            line,
            fields,
            start,
            end,
        })
    }
}
