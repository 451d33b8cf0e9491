//! The laws of types: each function is a theorem, and does nothing.

ghost use Rattle.odata_types.specs.KeyValue.{LiteralsHaveValues};
ghost use Rattle.odata_types.specs.Laws.{ExpressionsAreQueried, FiltersAreQueried, Sizes, TablesAreInputs};
ghost use Rattle.odata_types.specs.Worked.{WorkedTypings};

/// A filter of the tokens of a source of at most 2 to the 30 bytes has at most 1,024 nodes and no longer text.
pub fn filters_are_queried()
    ensures { FiltersAreQueried }
{}

/// Nor have the expressions of `$orderby` and of `$apply`.
pub fn expressions_are_queried()
    ensures { ExpressionsAreQueried }
{}

/// The columns of a table are an input, and its rows are rows of that input.
pub fn tables_are_inputs()
    ensures { TablesAreInputs }
{}

/// A literal has a value in a column of a kind just if it is one of the kind, and then that value is it; it is refused for one cause otherwise.
pub fn literals_have_values()
    ensures { LiteralsHaveValues }
{}

/// The numbers of the profile.
pub fn sizes()
    ensures { Sizes }
{}

/// Expressions with their types, or the causes why they have none, written by hand.
pub fn worked_typings()
    ensures { WorkedTypings }
{}
