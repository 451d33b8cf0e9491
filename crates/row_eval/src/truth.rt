//! Three-valued logic (OData 4.01 URL Conventions, section 5.1.1.1.9): in the order false, null, true, `and` is the least and `or` the
//! greatest of its sides.

ghost use Rattle.std.specs.Prelude.{◌≡◌};
ghost use Rattle.row_eval.specs.Logic.{greatest as greatest_of, least as least_of, opposite as opposite_of, option_of_truth, truth_of as truth_of_bool, truth_of_option};

/// What a condition says of a row. The variants stand in their order.
#[derive(Clone, Copy, PartialEq, Eq)]
pub enum Truth {
    False,
    Null,
    True,
}

/// Returns the `and` of two truths.
#[inline(always)]
pub fn least(left: Truth, right: Truth) -> Truth
    ensures { result ≡ least_of left right }
{
    if (left as u8) < (right as u8) {
        left
    } else {
        right
    }
}

/// Returns the `or` of two truths.
#[inline(always)]
pub fn greatest(left: Truth, right: Truth) -> Truth
    ensures { result ≡ greatest_of left right }
{
    if (left as u8) < (right as u8) {
        right
    } else {
        left
    }
}

/// Returns the `not` of a truth.
#[inline(always)]
pub fn opposite(truth: Truth) -> Truth
    ensures { result ≡ opposite_of truth }
{
    match truth {
        Truth::False => Truth::True,
        Truth::Null => Truth::Null,
        Truth::True => Truth::False,
    }
}

/// Returns true or false.
#[inline(always)]
pub fn truth_of(value: bool) -> Truth
    ensures { result ≡ truth_of_bool value }
{
    if value { Truth::True } else { Truth::False }
}

/// Returns a value, or none for null.
pub(crate) fn optional_truth(value: Option<bool>) -> Truth
    ensures { result ≡ truth_of_option value }
{
    match value {
        Some(value) => truth_of(value),
        None => Truth::Null,
    }
}

/// Returns the value of a truth; none for null.
pub(crate) fn truth_value(truth: Truth) -> Option<bool>
    ensures { result ≡ option_of_truth truth }
{
    match truth {
        Truth::False => Some(false),
        Truth::Null => None,
        Truth::True => Some(true),
    }
}
