//! Functions (OData 4.01 URL Conventions, sections 5.1.1.5, 5.1.1.7 and 5.1.1.8).

ghost use Rattle.std.specs.Prelude.{Ok};
ghost use Rattle.odata_types.specs.Result.{Gives};
ghost use Rattle.typed_trees.specs.TypedTree.{boxed_text, test_text, truth, typed_view};
ghost use Rattle.odata_types.specs.Typing.{binary_call_typing, part_typing, unary_call_typing};

use crate::fault::TypeFault;
use crate::operand::{date_operand, text_operand};
use crate::types::FUNCTION_SIZE;
use odata_parse::tree::{BinaryFunction, UnaryFunction};
use std::alloc::Global;
use typed_trees::{DatePart, NumberExpr, TextExpr, TextTest, TruthExpr, TypedExpr};

/// Returns a part of a date.
fn part_expr(alloc: Global, part: DatePart, argument: TypedExpr) -> Result<TypedExpr, TypeFault>
    ensures { Gives typed_view (part_typing part (typed_view argument)) result }
{
    let date = date_operand(argument)?;
    let expr = NumberExpr::PartOf(part, date);
    Ok(TypedExpr::Integer(Box::new(alloc, expr)?, FUNCTION_SIZE))
}

/// Returns a function of one argument.
pub(crate) fn unary_call(
    alloc: Global,
    function: UnaryFunction,
    argument: TypedExpr,
) -> Result<TypedExpr, TypeFault>
    ensures { Gives typed_view (unary_call_typing function (typed_view argument)) result }
{
    match function {
        UnaryFunction::Length => {
            let text = text_operand(alloc, argument)?;
            let expr = NumberExpr::Length(text);
            Ok(TypedExpr::Integer(Box::new(alloc, expr)?, FUNCTION_SIZE))
        }
        UnaryFunction::Year => part_expr(alloc, DatePart::Year, argument),
        UnaryFunction::Month => part_expr(alloc, DatePart::Month, argument),
        UnaryFunction::Day => part_expr(alloc, DatePart::Day, argument),
    }
}

/// Returns whether a text has a part.
fn test_expr(
    alloc: Global,
    test: TextTest,
    text: Box<TextExpr>,
    part: Box<TextExpr>,
) -> Result<TypedExpr, TypeFault>
    ensures { Gives typed_view (Ok (truth (test_text test (boxed_text text) (boxed_text part))))
        result }
{
    let expr = TruthExpr::TestText(test, text, part);
    Ok(TypedExpr::Boolean(Box::new(alloc, expr)?))
}

/// Returns a function of two texts.
pub(crate) fn binary_call(
    alloc: Global,
    function: BinaryFunction,
    left: TypedExpr,
    right: TypedExpr,
) -> Result<TypedExpr, TypeFault>
    ensures { Gives typed_view (binary_call_typing function (typed_view left) (typed_view right))
        result }
{
    let left = text_operand(alloc, left)?;
    let right = text_operand(alloc, right)?;
    match function {
        BinaryFunction::Contains => test_expr(alloc, TextTest::Contains, left, right),
        BinaryFunction::StartsWith => test_expr(alloc, TextTest::StartsWith, left, right),
        BinaryFunction::EndsWith => test_expr(alloc, TextTest::EndsWith, left, right),
        BinaryFunction::IndexOf => {
            let expr = NumberExpr::IndexOf(left, right);
            Ok(TypedExpr::Integer(Box::new(alloc, expr)?, FUNCTION_SIZE))
        }
        BinaryFunction::Concat => {
            let expr = TextExpr::Concat(left, right);
            Ok(TypedExpr::Text(Box::new(alloc, expr)?))
        }
    }
}
