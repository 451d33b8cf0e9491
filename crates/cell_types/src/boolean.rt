//! Booleans (Model for Tabular Data and Metadata on the Web, section 6.4.3): one of the texts of true, or one of those of false.
ghost use Rattle.std.specs.Prelude.{◌≡◌};
ghost use Rattle.cell_types.specs.Datatype.{boolean_view};
ghost use Rattle.cell_types.specs.Boolean.{truth_reading};
ghost use Rattle.cell_types.specs.Cell.{reading_view, typed_value};

use crate::datatype::BooleanForm;
use crate::fault::CellFault;
use crate::value::Value;

/// Returns the boolean of a text, or `None` if the text is none of those of true and false.
#[inline(always)]
pub fn truth_of(form: &BooleanForm, text: &str) -> Option<bool>
    ensures { truth_reading result ≡ typed_value (boolean_view form.now) text.now }
{
    match form {
        BooleanForm::Standard => match text {
            "true" | "1" => Some(true),
            "false" | "0" => Some(false),
            _ => None,
        },
        BooleanForm::Texts(of_true, of_false) => {
            if of_true.as_str() == text {
                Some(true)
            } else if of_false.as_str() == text {
                Some(false)
            } else {
                None
            }
        }
    }
}

/// Returns the value of a text in a form.
pub fn read_boolean<'a>(form: &BooleanForm, text: &str) -> Result<Value<'a>, CellFault>
    ensures { reading_view result ≡ typed_value (boolean_view form.now) text.now }
{
    match truth_of(form, text) {
        Some(truth) => Ok(Value::Bool(truth)),
        None => Err(CellFault::NotBoolean),
    }
}
