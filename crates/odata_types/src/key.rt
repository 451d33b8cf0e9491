//! The values of literals in the columns of a key (OData 4.01 URL Conventions, section 4.3.1).

ghost use Rattle.cell_types.specs.Value.{value_view};
ghost use Rattle.odata_parse.specs.Tree.{literal_view};
ghost use Rattle.odata_types.specs.KeyValue.{kind_value, scaled_value as scaled_value_of};
ghost use Rattle.odata_types.specs.Result.{Gives};

use crate::fault::TypeFault;
use crate::operand::scaled;
use cell_types::{ColumnKind, NumberKind, Value};
use odata_parse::tree::Literal;
use std::alloc::Global;
use std::borrow::CowStr;
use typed_trees::MILLIONTHS;

/// Returns a whole number of a key as a decimal.
fn scaled_value(number: i128) -> Result<Value<'static>, TypeFault>
    ensures { Gives value_view (scaled_value_of number) result }
{
    match scaled(number.unsigned_abs()) {
        Ok(_) => Ok(Value::Decimal(number * MILLIONTHS as i128)),
        Err(_) => Err(TypeFault::BadKey),
    }
}

/// Returns the value of a literal in a key's column of a kind.
pub fn key_value(
    alloc: Global,
    kind: ColumnKind,
    literal: &Literal,
) -> Result<Value<'static>, TypeFault>
    ensures { Gives value_view (kind_value kind (literal_view literal.now)) result }
{
    match (kind, literal) {
        (ColumnKind::Number(NumberKind::Integer), Literal::Number(number)) => Ok(Value::Int(
            *number,
        )),
        (ColumnKind::Text, Literal::Text(text)) => {
            let text = String::from_str(alloc, text.as_str())?;
            Ok(Value::Text(CowStr::Owned(text)))
        }
        (ColumnKind::Number(NumberKind::Boolean), Literal::Boolean(truth)) => Ok(Value::Bool(
            *truth,
        )),
        (ColumnKind::Number(NumberKind::Date), Literal::Date(date)) => Ok(Value::Date(*date)),
        (ColumnKind::Number(NumberKind::Decimal), Literal::Decimal(number)) => Ok(Value::Decimal(
            *number,
        )),
        (ColumnKind::Number(NumberKind::Decimal), Literal::Number(number)) => scaled_value(*number),
        _ => Err(TypeFault::BadKey),
    }
}
