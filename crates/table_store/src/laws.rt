//! The laws of the definitions of tables: each function is a theorem, and does nothing.
ghost use Rattle.table_store.specs.Laws.{FirstBadCellIsFirst, FirstMismatchIsFirst, KeysOfTables, OneMeaning, SchemasOfTables};
ghost use Rattle.table_store.specs.Worked.{WorkedTables};

/// A header matches the columns if each cell of it is called as its column is; else the column that is reported is the first at which they differ.
pub fn first_mismatch_is_first()
    ensures { FirstMismatchIsFirst }
{}

/// Rows have values if each cell has one; else the cell that is reported is the first, row by row, that has none.
pub fn first_bad_cell_is_first()
    ensures { FirstBadCellIsFirst }
{}

/// A folder has one meaning or one cause why it is refused, and never both.
pub fn one_meaning()
    ensures { OneMeaning }
{
    csv_grammar::table_or_fault();
    csv_grammar::one_table();
    csv_grammar::one_file_fault();
}

/// The tables of a folder have the schemas that its metadata says.
pub fn schemas_of_tables()
    ensures { SchemasOfTables }
{}

/// In the tables of a folder no two rows have one key, no part of a key is null, and the row with the key of a row is that row.
pub fn keys_of_tables()
    ensures { KeysOfTables }
{
    key_index::keys_find_rows();
}

/// States keys and files with what is found in them, worked out by hand.
pub fn worked_tables()
    ensures { WorkedTables }
{}
