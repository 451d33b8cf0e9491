//! `in` and its list of values (OData 4.01 URL Conventions, section 5.1.1.1.11).

ghost use Rattle.std.specs.Prelude.{◌≡◌, map, IfOk};
ghost use Rattle.std.specs.List.{list_all};
ghost use Rattle.odata_parse.specs.Tree.{literal_view};
ghost use Rattle.odata_types.specs.Result.{Gives};
ghost use Rattle.typed_trees.specs.TypedTree.{boxed_truth, optional_text, typed_view};
ghost use Rattle.odata_types.specs.Typing.{type_fits as fits_in, in_typing, is_small as is_small_of, list_as as list_as_of, list_in_type, list_type as list_type_of, literal_type as literal_type_of, number_item as number_item_of, number_items as number_items_of, text_item as text_item_of, truth_item as truth_item_of};

use crate::fault::TypeFault;
use crate::literal::{is_small, literal_type};
use crate::operand::{expr_type, number_operand, scaled, text_operand, truth_operand};
use crate::operator::common_type;
use crate::types::ExprType;
use cell_types::day_number;
use odata_parse::tree::Literal;
use std::alloc::{AllocError, Global};
use typed_trees::{MILLIONTHS, TruthExpr, TypedExpr};

/// Returns the type of an operand and a list together.
fn list_type(first: ExprType, items: &[Literal]) -> ExprType
    ensures { result ≡ list_type_of first (map literal_view items.now) }
{
    let mut common = first;
    for item in items {
        common = common_type(common, literal_type(item));
    }
    common
}

/// Returns true if a type fits where another is asked for.
fn fits(wanted: ExprType, found: ExprType) -> bool
    ensures { result ≡ fits_in wanted found }
{
    match (wanted, found) {
        (_, ExprType::Null)
        | (ExprType::Decimal, ExprType::Integer | ExprType::Decimal)
        | (ExprType::Integer, ExprType::Integer)
        | (ExprType::Text, ExprType::Text)
        | (ExprType::Boolean, ExprType::Boolean)
        | (ExprType::Date, ExprType::Date) => true,
        _ => false,
    }
}

/// Returns true if no value of a list is too large.
fn are_small(items: &[Literal]) -> bool
    ensures { result ≡ list_all is_small_of (map literal_view items.now) }
{
    for item in items {
        if !is_small(item) {
            return false;
        }
    }
    true
}

/// Returns true if each value of a list fits a type.
fn all_fit(wanted: ExprType, items: &[Literal]) -> bool
    ensures { result
        ≡ list_all (λ v. fits_in wanted (literal_type_of v)) (map literal_view items.now) }
{
    for item in items {
        if !fits(wanted, literal_type(item)) {
            return false;
        }
    }
    true
}

/// Returns a value as a number of a type: an integer among decimals is scaled, and a date is numbered.
fn number_item(wanted: ExprType, item: &Literal) -> Result<Option<i128>, TypeFault>
    ensures { result ≡ number_item_of wanted (literal_view item.now) }
{
    match (wanted, item) {
        (ExprType::Integer, Literal::Number(number)) => Ok(Some(*number)),
        (ExprType::Decimal, Literal::Number(number)) => {
            scaled(number.unsigned_abs())?;
            Ok(Some(*number * MILLIONTHS as i128))
        }
        (ExprType::Decimal, Literal::Decimal(number)) => Ok(Some(*number)),
        (ExprType::Date, Literal::Date(date)) => Ok(Some(i128::from(day_number(*date)))),
        _ => Ok(None),
    }
}

/// Returns a value as a text.
fn text_item(alloc: Global, item: &Literal) -> Result<Option<String>, AllocError>
    ensures { IfOk result (λ text. optional_text text ≡ text_item_of (literal_view item.now)) }
{
    match item {
        Literal::Text(text) => Ok(Some(String::from_str(alloc, text.as_str())?)),
        _ => Ok(None),
    }
}

/// Returns a value as a truth.
fn truth_item(item: &Literal) -> Option<bool>
    ensures { result ≡ truth_item_of (literal_view item.now) }
{
    match item {
        Literal::Boolean(truth) => Some(*truth),
        _ => None,
    }
}

fn number_items(
    alloc: Global,
    wanted: ExprType,
    items: &[Literal],
) -> Result<Vec<Option<i128>>, TypeFault>
    ensures { Gives (λ values. values.items) (number_items_of wanted (map literal_view items.now))
        result }
{
    let mut values = Vec::with_capacity(alloc, items.len())?;
    for item in items {
        values.push(number_item(wanted, item)?)?;
    }
    Ok(values)
}

fn text_items(alloc: Global, items: &[Literal]) -> Result<Vec<Option<String>>, AllocError>
    ensures { IfOk result
        (λ values. map optional_text values.items ≡ map text_item_of (map literal_view items.now)) }
{
    let mut values = Vec::with_capacity(alloc, items.len())?;
    for item in items {
        values.push(text_item(alloc, item)?)?;
    }
    Ok(values)
}

fn truth_items(alloc: Global, items: &[Literal]) -> Result<Vec<Option<bool>>, AllocError>
    ensures { IfOk result
        (λ values. values.items ≡ map truth_item_of (map literal_view items.now)) }
{
    let mut values = Vec::with_capacity(alloc, items.len())?;
    for item in items {
        values.push(truth_item(item))?;
    }
    Ok(values)
}

/// Returns `in` at operands of a type.
fn list_as(
    alloc: Global,
    common: ExprType,
    operand: TypedExpr,
    items: &[Literal],
) -> Result<Box<TruthExpr>, TypeFault>
    ensures { Gives boxed_truth
        (list_as_of common (typed_view operand) (map literal_view items.now)) result }
{
    let expr = match common {
        ExprType::Text => {
            let operand = text_operand(alloc, operand)?;
            TruthExpr::TextIn(operand, text_items(alloc, items)?)
        }
        ExprType::Boolean | ExprType::Null => {
            let operand = truth_operand(alloc, operand)?;
            TruthExpr::TruthIn(operand, truth_items(alloc, items)?)
        }
        ExprType::Integer | ExprType::Decimal | ExprType::Date => {
            let operand = number_operand(alloc, common, operand)?;
            TruthExpr::NumberIn(operand, number_items(alloc, common, items)?)
        }
    };
    Ok(Box::new(alloc, expr)?)
}

/// Returns `in`, if no value of the list is too large.
fn list_in_type(
    alloc: Global,
    common: ExprType,
    operand: TypedExpr,
    items: &[Literal],
) -> Result<TypedExpr, TypeFault>
    ensures { Gives typed_view
        (list_in_type common (typed_view operand) (map literal_view items.now)) result }
{
    if !all_fit(common, items) {
        return Err(TypeFault::Mismatch);
    }
    let expr = list_as(alloc, common, operand, items)?;
    Ok(TypedExpr::Boolean(expr))
}

/// Returns whether an operand is one of a list.
pub(crate) fn in_expr(
    alloc: Global,
    operand: TypedExpr,
    items: &[Literal],
) -> Result<TypedExpr, TypeFault>
    ensures { Gives typed_view (in_typing (typed_view operand) (map literal_view items.now))
        result }
{
    if !are_small(items) {
        return Err(TypeFault::TooLarge);
    }
    let common = list_type(expr_type(&operand), items);
    list_in_type(alloc, common, operand, items)
}
