//! Operators (OData 4.01 URL Conventions, sections 5.1.1.1 and 5.1.1.2).

ghost use Rattle.std.specs.Prelude.{◌≡◌};
ghost use Rattle.odata_types.specs.Result.{Gives};
ghost use Rattle.typed_trees.specs.TypedTree.{boxed_truth, typed_view};
ghost use Rattle.odata_types.specs.Typing.{arithmetic_typing, binary_typing, common_type as common_type_of, comparison_as as comparison_as_of, comparison_typing, computed_size as computed_size_of, decimals_typing, integers_typing, logic_typing, unary_typing, within};

use crate::fault::TypeFault;
use crate::operand::{
    decimal_operand, expr_type, integer_operand, number_operand, text_operand, truth_operand,
    within,
};
use crate::types::ExprType;
use cell_types::ComparisonOperator;
use odata_parse::tree::{BinaryOperator, LogicOperator, UnaryOperator};
use std::alloc::Global;
use typed_trees::{ArithmeticOperator, NumberExpr, TruthExpr, TypedExpr};

/// Returns `-` or `not` before an operand.
pub(crate) fn unary_expr(
    alloc: Global,
    operator: UnaryOperator,
    operand: TypedExpr,
) -> Result<TypedExpr, TypeFault>
    ensures { Gives typed_view (unary_typing operator (typed_view operand)) result }
{
    match (operator, operand) {
        (UnaryOperator::Negate, TypedExpr::Decimal(expr, bound)) => Ok(TypedExpr::Decimal(
            Box::new(alloc, NumberExpr::Negate(expr))?,
            bound,
        )),
        (UnaryOperator::Negate, operand) => {
            let (expr, bound) = integer_operand(alloc, operand)?;
            Ok(TypedExpr::Integer(Box::new(alloc, NumberExpr::Negate(expr))?, bound))
        }
        (UnaryOperator::Not, operand) => {
            let expr = truth_operand(alloc, operand)?;
            Ok(TypedExpr::Boolean(Box::new(alloc, TruthExpr::Not(expr))?))
        }
    }
}

/// Returns `and` or `or` between operands.
fn logic_expr(
    alloc: Global,
    operator: LogicOperator,
    left: TypedExpr,
    right: TypedExpr,
) -> Result<TypedExpr, TypeFault>
    ensures { Gives typed_view (logic_typing operator (typed_view left) (typed_view right)) result }
{
    let left = truth_operand(alloc, left)?;
    let right = truth_operand(alloc, right)?;
    let expr = match operator {
        LogicOperator::And => TruthExpr::And(left, right),
        LogicOperator::Or => TruthExpr::Or(left, right),
    };
    Ok(TypedExpr::Boolean(Box::new(alloc, expr)?))
}

/// Returns the bound of a computed number.
fn computed_size(operator: ArithmeticOperator, left: u128, right: u128) -> Result<u128, TypeFault>
    ensures { result
        ≡ within (computed_size_of operator left right) (computed_size_of operator left right) }
{
    let size = match operator {
        ArithmeticOperator::Add | ArithmeticOperator::Sub => left.checked_add(right),
        ArithmeticOperator::Mul => left.checked_mul(right),
        ArithmeticOperator::Div | ArithmeticOperator::Mod => Some(left),
    };
    match size {
        Some(size) => within(size),
        None => Err(TypeFault::TooLarge),
    }
}

/// Returns an operator between integers.
fn integers_expr(
    alloc: Global,
    operator: ArithmeticOperator,
    left: TypedExpr,
    right: TypedExpr,
) -> Result<TypedExpr, TypeFault>
    ensures { Gives typed_view (integers_typing operator (typed_view left) (typed_view right))
        result }
{
    let (left, left_bound) = integer_operand(alloc, left)?;
    let (right, right_bound) = integer_operand(alloc, right)?;
    let bound = computed_size(operator, left_bound, right_bound)?;
    let expr = NumberExpr::Arithmetic(operator, left, right);
    Ok(TypedExpr::Integer(Box::new(alloc, expr)?, bound))
}

/// Returns the sum or the difference of decimals.
fn decimals_expr(
    alloc: Global,
    operator: ArithmeticOperator,
    left: TypedExpr,
    right: TypedExpr,
) -> Result<TypedExpr, TypeFault>
    ensures { Gives typed_view (decimals_typing operator (typed_view left) (typed_view right))
        result }
{
    let (left, left_bound) = decimal_operand(alloc, left)?;
    let (right, right_bound) = decimal_operand(alloc, right)?;
    let bound = computed_size(operator, left_bound, right_bound)?;
    let expr = NumberExpr::Arithmetic(operator, left, right);
    Ok(TypedExpr::Decimal(Box::new(alloc, expr)?, bound))
}

/// Returns the type of two operands together.
pub(crate) fn common_type(left: ExprType, right: ExprType) -> ExprType
    ensures { result ≡ common_type_of left right }
{
    match (left, right) {
        (ExprType::Null, right) => right,
        (ExprType::Integer, ExprType::Decimal) => ExprType::Decimal,
        (left, _) => left,
    }
}

/// Returns an operator of arithmetic between operands.
fn arithmetic_expr(
    alloc: Global,
    operator: ArithmeticOperator,
    left: TypedExpr,
    right: TypedExpr,
) -> Result<TypedExpr, TypeFault>
    ensures { Gives typed_view (arithmetic_typing operator (typed_view left) (typed_view right))
        result }
{
    let common = common_type(expr_type(&left), expr_type(&right));
    match (common, operator) {
        (ExprType::Decimal, ArithmeticOperator::Add | ArithmeticOperator::Sub) => {
            decimals_expr(alloc, operator, left, right)
        }
        _ => integers_expr(alloc, operator, left, right),
    }
}

/// Returns a comparison of operands of a type.
fn comparison_as(
    alloc: Global,
    common: ExprType,
    operator: ComparisonOperator,
    left: TypedExpr,
    right: TypedExpr,
) -> Result<Box<TruthExpr>, TypeFault>
    ensures { Gives boxed_truth
        (comparison_as_of common operator (typed_view left) (typed_view right)) result }
{
    let expr = match common {
        ExprType::Text => {
            let left = text_operand(alloc, left)?;
            let right = text_operand(alloc, right)?;
            TruthExpr::CompareTexts(operator, left, right)
        }
        ExprType::Boolean | ExprType::Null => {
            let left = truth_operand(alloc, left)?;
            let right = truth_operand(alloc, right)?;
            TruthExpr::CompareTruths(operator, left, right)
        }
        ExprType::Integer | ExprType::Decimal | ExprType::Date => {
            let left = number_operand(alloc, common, left)?;
            let right = number_operand(alloc, common, right)?;
            TruthExpr::CompareNumbers(operator, left, right)
        }
    };
    Ok(Box::new(alloc, expr)?)
}

/// Returns a comparison of operands.
fn comparison_expr(
    alloc: Global,
    operator: ComparisonOperator,
    left: TypedExpr,
    right: TypedExpr,
) -> Result<TypedExpr, TypeFault>
    ensures { Gives typed_view (comparison_typing operator (typed_view left) (typed_view right))
        result }
{
    let common = common_type(expr_type(&left), expr_type(&right));
    let expr = comparison_as(alloc, common, operator, left, right)?;
    Ok(TypedExpr::Boolean(expr))
}

/// Returns an operator between operands.
pub(crate) fn binary_expr(
    alloc: Global,
    operator: BinaryOperator,
    left: TypedExpr,
    right: TypedExpr,
) -> Result<TypedExpr, TypeFault>
    ensures { Gives typed_view (binary_typing operator (typed_view left) (typed_view right))
        result }
{
    match operator {
        BinaryOperator::Logic(operator) => logic_expr(alloc, operator, left, right),
        BinaryOperator::Comparison(operator) => comparison_expr(alloc, operator, left, right),
        BinaryOperator::Arithmetic(operator) => arithmetic_expr(alloc, operator, left, right),
    }
}
