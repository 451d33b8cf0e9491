//! Values that an expression writes (OData 4.01 URL Conventions, section 5.1.1.14.1).

ghost use Rattle.std.specs.Prelude.{◌≡◌};
ghost use Rattle.odata_parse.specs.Tree.{literal_view};
ghost use Rattle.odata_types.specs.Result.{Gives};
ghost use Rattle.typed_trees.specs.TypedTree.{typed_view};
ghost use Rattle.odata_types.specs.Typing.{literal_typing, literal_type as literal_type_of, is_small as is_small_of};

use crate::fault::TypeFault;
use crate::operand::within;
use crate::types::{ExprType, MOST_SIZE};
use odata_parse::tree::Literal;
use std::alloc::Global;
use typed_trees::{DateExpr, NumberExpr, TextExpr, TruthExpr, TypedExpr};

/// Returns a value as an expression.
pub(crate) fn literal_expr(alloc: Global, literal: &Literal) -> Result<TypedExpr, TypeFault>
    ensures { Gives typed_view (literal_typing (literal_view literal.now)) result }
{
    match literal {
        Literal::Null => Ok(TypedExpr::Null),
        Literal::Boolean(truth) => Ok(TypedExpr::Boolean(Box::new(
            alloc,
            TruthExpr::Literal(*truth),
        )?)),
        Literal::Number(number) => {
            let bound = within(number.unsigned_abs())?;
            Ok(TypedExpr::Integer(Box::new(alloc, NumberExpr::Literal(*number))?, bound))
        }
        Literal::Text(text) => {
            let text = String::from_str(alloc, text.as_str())?;
            Ok(TypedExpr::Text(Box::new(alloc, TextExpr::Literal(text))?))
        }
        Literal::Date(date) => Ok(TypedExpr::Date(DateExpr::Literal(*date))),
        Literal::Decimal(number) => {
            let bound = within(number.unsigned_abs())?;
            Ok(TypedExpr::Decimal(Box::new(alloc, NumberExpr::Literal(*number))?, bound))
        }
    }
}

/// Returns the type of a value.
pub(crate) fn literal_type(literal: &Literal) -> ExprType
    ensures { result ≡ literal_type_of (literal_view literal.now) }
{
    match literal {
        Literal::Null => ExprType::Null,
        Literal::Boolean(_) => ExprType::Boolean,
        Literal::Number(_) => ExprType::Integer,
        Literal::Text(_) => ExprType::Text,
        Literal::Date(_) => ExprType::Date,
        Literal::Decimal(_) => ExprType::Decimal,
    }
}

/// Returns true if a value is none that is too large.
pub(crate) fn is_small(literal: &Literal) -> bool
    ensures { result ≡ is_small_of (literal_view literal.now) }
{
    match literal {
        Literal::Number(number) | Literal::Decimal(number) => number.unsigned_abs() <= MOST_SIZE,
        _ => true,
    }
}
