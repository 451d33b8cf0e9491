//! The lines in which bytes and rows are in a file. Lines count from 1; a line feed ends one, inside double quotes too.
use csv_index::Index;
use csv_shapes::Records;
use csvw_meta::Schema;

/// The file of a schema as a table: its text, and the places of its fields there.
#[derive(Drop)]
pub struct TableFile<'a> {
    pub schema: &'a Schema,
    pub text: &'a str,
    pub index: &'a Index,
}

impl<'a> TableFile<'a> {
    /// Returns the line in which a row begins.
    pub fn line_of(&self, row: usize) -> usize {
        let mut records = Records::new(self.text.as_bytes(), b',');
        for _before in 0..=row {
            records.next_record();
        }
        records.line()
    }
}
