//! Expressions (OData 4.01 URL Conventions, section 5.1.1).

ghost use Rattle.odata_parse.specs.Tree.{expr_view};
ghost use Rattle.odata_types.specs.Columns.{inputs_view};
ghost use Rattle.odata_types.specs.Result.{Gives};
ghost use Rattle.typed_trees.specs.TypedTree.{boxed_truth, typed_view};
ghost use Rattle.odata_types.specs.Typing.{filter_typing, typing};

use crate::column::named_expr;
use crate::fault::TypeFault;
use crate::function::{binary_call, unary_call};
use crate::list::in_expr;
use crate::literal::literal_expr;
use crate::operand::truth_operand;
use crate::operator::{binary_expr, unary_expr};
use crate::types::InputColumn;
use odata_parse::tree::Expr;
use std::alloc::Global;
use typed_trees::{TruthExpr, TypedExpr};

/// Returns an expression over columns with its types; or the first cause why it has none.
pub fn typed_expr(
    alloc: Global,
    columns: &[InputColumn<'_>],
    expr: &Expr,
) -> Result<TypedExpr, TypeFault>
    ensures { Gives typed_view (typing (inputs_view columns.now) (expr_view expr.now)) result }
{
    match expr {
        Expr::Literal(literal) => literal_expr(alloc, literal),
        Expr::Name(name) => named_expr(alloc, columns, name.as_str()),
        Expr::Unary(operator, operand) => {
            let operand = typed_expr(alloc, columns, operand)?;
            unary_expr(alloc, *operator, operand)
        }
        Expr::Binary(operator, left, right) => {
            let left = typed_expr(alloc, columns, left)?;
            let right = typed_expr(alloc, columns, right)?;
            binary_expr(alloc, *operator, left, right)
        }
        Expr::In(operand, items) => {
            let operand = typed_expr(alloc, columns, operand)?;
            in_expr(alloc, operand, items.as_slice())
        }
        Expr::UnaryCall(function, argument) => {
            let argument = typed_expr(alloc, columns, argument)?;
            unary_call(alloc, *function, argument)
        }
        Expr::BinaryCall(function, left, right) => {
            let left = typed_expr(alloc, columns, left)?;
            let right = typed_expr(alloc, columns, right)?;
            binary_call(alloc, *function, left, right)
        }
    }
}

/// Returns a filter over columns with its types, which is a truth or null; or the first cause why it has none.
pub fn typed_filter(
    alloc: Global,
    columns: &[InputColumn<'_>],
    filter: &Expr,
) -> Result<Box<TruthExpr>, TypeFault>
    ensures { Gives boxed_truth (filter_typing (inputs_view columns.now) (expr_view filter.now))
        result }
{
    let expr = typed_expr(alloc, columns, filter)?;
    truth_operand(alloc, expr)
}
