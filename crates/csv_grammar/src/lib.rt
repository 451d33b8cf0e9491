//! The grammar of CSV files (RFC 4180, section 2), as definitions that the crates above cite: the records of a text, the fault
//! of a text, the content of a field, the table that a file is, and what is first wrong with a file. [`mark_len`] is what all
//! readers of a file begin with. The other functions here are the laws of these definitions: each is a theorem, and does nothing.
#![tactic(auto)]

ghost use Rattle.csv_grammar.specs.Laws.{OneListOfRecords, RecordsOrFault, OneFault, OneTable, OneFileFault, OneStructure, TableOrFault, WhatFollows};
ghost use Rattle.csv_grammar.specs.Pieces.{InWindows};

mod files;

pub use files::mark_len;

/// A text has at most one list of records.
pub fn one_list_of_records()
    ensures { OneListOfRecords }
{}

/// A text has records or a fault, and not both.
pub fn records_or_fault()
    ensures { RecordsOrFault }
{}

/// A text has at most one fault.
pub fn one_fault()
    ensures { OneFault }
{}

/// A file is at most one table.
pub fn one_table()
    ensures { OneTable }
{}

/// One thing at most is the first that is wrong with a file, and nothing is wrong with a table.
pub fn one_file_fault()
    ensures { OneFileFault }
{}

/// All continuations of a text agree on its structural places.
#[inline(always)]
pub fn one_structure()
    ensures { OneStructure }
{}

/// What may follow a text, and what it is there for, depends on the parity of the text's double quotes and on its last byte.
#[inline(always)]
pub fn what_follows()
    ensures { WhatFollows }
{}

/// What follows the first lines of a file, read after another line as a file of its own, says what the whole file is.
pub fn in_windows()
    ensures { InWindows }
{}

/// A file is a table, or something is wrong with it.
pub fn table_or_fault()
    ensures { TableOrFault }
{}
