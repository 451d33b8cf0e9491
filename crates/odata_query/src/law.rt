//! The laws of queries: each function is a theorem, and does nothing.

ghost use Rattle.odata_query.specs.KeyValues.{KeysAreTyped};
ghost use Rattle.odata_query.specs.Laws.{QuerySizes};
ghost use Rattle.odata_query.specs.Worked.{WorkedKeys, WorkedTransformations};

use odata_types::literals_have_values;

/// The numbers of the profile.
pub fn sizes()
    ensures { QuerySizes }
{}

/// A key predicate has a type just if each of its literals has a value in its column of the key, and then these values are it; it is
/// refused for its one cause otherwise.
pub fn keys_are_typed()
    ensures { KeysAreTyped }
{
    literals_have_values();
}

/// Keys with their values, or refused, written by hand.
pub fn worked_keys()
    ensures { WorkedKeys }
{}

/// Transformations with the columns of their results, or the causes why they have none, written by hand.
pub fn worked_transformations()
    ensures { WorkedTransformations }
{}
