//! The laws of the bodies: each function is a theorem, and does nothing.
ghost use Rattle.reply_text.specs.Laws.{CountsAreLengths, CsvReadsBack, JsonReadsBack, PiecesAreBodies, TablesFitCsv};

use csv_grammar::one_list_of_records;
use csvw_meta::accepted_schemas;
use reply_values::values_read_back;

/// What we publish, our own grammar reads: the records of a body of rows that CSV can say are the names and the texts of the values,
/// and their double quotes tell an empty text from null.
pub fn csv_reads_back()
    ensures { CsvReadsBack }
{
    one_list_of_records();
    values_read_back();
}

/// The rows of every table of a folder are rows that CSV can say: no name of a column needs double quotes.
pub fn tables_fit_csv()
    ensures { TablesFitCsv }
{
    accepted_schemas();
}

/// What we publish as JSON, a reader of JSON (RFC 8259) gives back: the values of cells, rows, and bodies of rows.
pub fn json_reads_back()
    ensures { JsonReadsBack }
{
    values_read_back();
}

/// A number of bytes that is counted is the number of bytes that are written, if it is less than the greatest that 64 bits tell.
pub fn counts_are_lengths()
    ensures { CountsAreLengths }
{}

/// The pieces in which a body of rows is written are the body.
pub fn pieces_are_bodies()
    ensures { PiecesAreBodies }
{}
