//! The keywords of expressions, which are read in any ASCII case.

ghost use Rattle.std.specs.Prelude.{◌≡◌, ◌≢◌, ◌↔◌, IsTrue, IfSome, IfNone};
ghost use Rattle.odata_parse.specs.Format.{same_text};
ghost use Rattle.odata_parse.specs.Keyword.{lower, logic_text, comparison_text, arithmetic_text, operator_text, unary_function_text, binary_function_text, method_text};
ghost use Rattle.odata_parse.specs.declared.tree.LogicOperator.{LogicOperator};
ghost use Rattle.cell_types.specs.declared.comparison.ComparisonOperator.{ComparisonOperator};
ghost use Rattle.typed_trees.specs.declared.operator.ArithmeticOperator.{ArithmeticOperator};
ghost use Rattle.odata_parse.specs.declared.tree.BinaryOperator.{BinaryOperator};
ghost use Rattle.odata_parse.specs.declared.tree.UnaryFunction.{UnaryFunction};
ghost use Rattle.odata_parse.specs.declared.tree.BinaryFunction.{BinaryFunction};
ghost use Rattle.odata_parse.specs.declared.tree.AggregationMethod.{AggregationMethod};

use crate::tree::{
    AggregationMethod, BinaryFunction, BinaryOperator, LogicOperator, UnaryFunction,
};
use cell_types::ComparisonOperator;
use typed_trees::ArithmeticOperator;

/// Returns true if a text is a keyword in any ASCII case.
pub(crate) fn spells(text: &str, keyword: &str) -> bool
    ensures is { IsTrue result ↔ (lower text.now ≡ lower keyword.now) }
    ensures same { result ≡ same_text text.now keyword.now }
{
    text.eq_ignore_ascii_case(keyword)
}

/// Returns the operator that a text names: `and` or `or`.
fn logic_operator(text: &str) -> Option<LogicOperator>
    ensures some { IfSome result (λ o. lower text.now ≡ logic_text o) }
    ensures none { IfNone result ((o : LogicOperator) → lower text.now ≢ logic_text o) }
{
    if spells(text, "and") {
        Some(LogicOperator::And)
    } else if spells(text, "or") {
        Some(LogicOperator::Or)
    } else {
        None
    }
}

/// Returns the comparisons.
fn comparison_operator(text: &str) -> Option<ComparisonOperator>
    ensures some { IfSome result (λ o. lower text.now ≡ comparison_text o) }
    ensures none { IfNone result ((o : ComparisonOperator) → lower text.now ≢ comparison_text o) }
{
    if spells(text, "eq") {
        Some(ComparisonOperator::Equal)
    } else if spells(text, "ne") {
        Some(ComparisonOperator::NotEqual)
    } else if spells(text, "gt") {
        Some(ComparisonOperator::GreaterThan)
    } else if spells(text, "ge") {
        Some(ComparisonOperator::GreaterOrEqual)
    } else if spells(text, "lt") {
        Some(ComparisonOperator::LessThan)
    } else if spells(text, "le") {
        Some(ComparisonOperator::LessOrEqual)
    } else {
        None
    }
}

/// Returns the operators of arithmetic.
fn arithmetic_operator(text: &str) -> Option<ArithmeticOperator>
    ensures some { IfSome result (λ o. lower text.now ≡ arithmetic_text o) }
    ensures none { IfNone result ((o : ArithmeticOperator) → lower text.now ≢ arithmetic_text o) }
{
    if spells(text, "add") {
        Some(ArithmeticOperator::Add)
    } else if spells(text, "sub") {
        Some(ArithmeticOperator::Sub)
    } else if spells(text, "mul") {
        Some(ArithmeticOperator::Mul)
    } else if spells(text, "div") {
        Some(ArithmeticOperator::Div)
    } else if spells(text, "mod") {
        Some(ArithmeticOperator::Mod)
    } else {
        None
    }
}

/// Returns the operator between two operands that a text is.
pub(crate) fn binary_operator(text: &str) -> Option<BinaryOperator>
    ensures some { IfSome result (λ o. lower text.now ≡ operator_text o) }
    ensures none { IfNone result ((o : BinaryOperator) → lower text.now ≢ operator_text o) }
{
    if let Some(operator) = logic_operator(text) {
        return Some(BinaryOperator::Logic(operator));
    }
    if let Some(operator) = comparison_operator(text) {
        return Some(BinaryOperator::Comparison(operator));
    }
    Some(BinaryOperator::Arithmetic(arithmetic_operator(text)?))
}

/// Returns the function of one argument that a text is.
pub(crate) fn unary_function(text: &str) -> Option<UnaryFunction>
    ensures some { IfSome result (λ f. lower text.now ≡ unary_function_text f) }
    ensures none { IfNone result ((f : UnaryFunction) → lower text.now ≢ unary_function_text f) }
{
    if spells(text, "length") {
        Some(UnaryFunction::Length)
    } else if spells(text, "year") {
        Some(UnaryFunction::Year)
    } else if spells(text, "month") {
        Some(UnaryFunction::Month)
    } else if spells(text, "day") {
        Some(UnaryFunction::Day)
    } else {
        None
    }
}

/// Returns the function of two arguments that a text is.
pub(crate) fn binary_function(text: &str) -> Option<BinaryFunction>
    ensures some { IfSome result (λ f. lower text.now ≡ binary_function_text f) }
    ensures none { IfNone result ((f : BinaryFunction) → lower text.now ≢ binary_function_text f) }
{
    if spells(text, "contains") {
        Some(BinaryFunction::Contains)
    } else if spells(text, "startswith") {
        Some(BinaryFunction::StartsWith)
    } else if spells(text, "endswith") {
        Some(BinaryFunction::EndsWith)
    } else if spells(text, "indexof") {
        Some(BinaryFunction::IndexOf)
    } else if spells(text, "concat") {
        Some(BinaryFunction::Concat)
    } else {
        None
    }
}

/// Returns the aggregation method that a text is.
pub(crate) fn aggregation_method(text: &str) -> Option<AggregationMethod>
    ensures some { IfSome result (λ m. lower text.now ≡ method_text m) }
    ensures none { IfNone result ((m : AggregationMethod) → lower text.now ≢ method_text m) }
{
    if spells(text, "sum") {
        Some(AggregationMethod::Sum)
    } else if spells(text, "min") {
        Some(AggregationMethod::Min)
    } else if spells(text, "max") {
        Some(AggregationMethod::Max)
    } else if spells(text, "countdistinct") {
        Some(AggregationMethod::CountDistinct)
    } else {
        None
    }
}
