//! The records of a file that may be no table.

/// Returns the line after some bytes that begin in a line.
pub fn line_after(line: usize, bytes: &[u8]) -> usize {
    let mut line = line;
    for byte in bytes {
        if *byte == b'\n' {
            line = line.saturating_add(1);
        }
    }
    line
}

/// A record of a file.
#[derive(Clone, Copy)]
pub struct RecordShape {
    /// The line in which it begins, counted from 1.
    pub line: usize,
    /// How many fields it has: one more than it has separators outside double quotes.
    pub fields: usize,
    /// It is an empty line.
    pub is_blank: bool,
}

/// The records of a file, one after another. A line feed outside double quotes ends one; inside double quotes it ends a line alone.
#[derive(Drop)]
pub struct Records<'a> {
    bytes: &'a [u8],
    at: usize,
    line: usize,
    separator: u8,
}

impl<'a> Records<'a> {
    /// Returns the records of a file whose fields a byte separates.
    pub fn new(bytes: &'a [u8], separator: u8) -> Records<'a> {
        Records {
            bytes,
            at: 0,
            line: 1,
            separator,
        }
    }

    /// Returns true if no record is left.
    pub fn is_at_end(&self) -> bool {
        self.at >= self.bytes.len()
    }

    /// Returns the line in which the next record begins, counted from 1.
    pub fn line(&self) -> usize {
        self.line
    }

    /// Passes the next record, and returns it. At the end of the file that is an empty one.
    pub fn next_record(&mut self) -> RecordShape {
        let line = self.line;
        let bytes = self.bytes;
        let mut fields: usize = 1;
        let mut quoted = false;
        let mut is_blank = true;
        for place in self.at..bytes.len() {
            self.at = place + 1;
            is_blank &= matches!(bytes[place], b'\r' | b'\n');
            match bytes[place] {
                b'"' => quoted = !quoted,
                byte if byte == self.separator && !quoted => fields = fields.saturating_add(1),
                b'\n' => {
                    self.line = self.line.saturating_add(1);
                    if !quoted {
                        break;
                    }
                }
                _ => {}
            }
        }
        RecordShape {
            line,
            fields,
            is_blank,
        }
    }
}
