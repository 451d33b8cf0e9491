//! Expressions that are columns, and the kinds of expressions.
ghost use Rattle.std.specs.Prelude.{◌≡◌, IfOk, Some};
ghost use Rattle.cell_types.specs.declared.kind.ColumnKind.TheVariants.{Number};
ghost use Rattle.typed_trees.specs.TypedTree.{typed_view};
ghost use Rattle.typed_trees.specs.Plain.{as_column, expression_kind, kind_expr, plain_at, ColumnsAreColumns};

use crate::tree::{DateExpr, NumberExpr, TextExpr, TruthExpr, TypedExpr};
use cell_types::{ColumnKind, NumberKind};
use std::alloc::{AllocError, Global};

/// A column by its place, and the kind of its values.
#[derive(Clone, Copy, PartialEq, Eq)]
pub struct PlainColumn {
    pub kind: ColumnKind,
    pub place: usize,
}

/// Returns the column of `kind` at `place`.
fn column_at(kind: ColumnKind, place: &usize) -> Option<PlainColumn>
    ensures { result ≡ Some (plain_at kind place.now) }
{
    let place = *place;
    Some(PlainColumn { kind, place })
}

/// Returns the column that an expression is, if it is one.
pub fn plain_column(expression: &TypedExpr) -> Option<PlainColumn>
    ensures { result ≡ as_column (typed_view expression.now) }
{
    match expression {
        TypedExpr::Null => None,
        TypedExpr::Integer(number, _) => match &**number {
            NumberExpr::Column(NumberKind::Integer, place) => column_at(
                ColumnKind::Number(NumberKind::Integer),
                place,
            ),
            _ => None,
        },
        TypedExpr::Text(text) => match &**text {
            TextExpr::Column(place) => column_at(ColumnKind::Text, place),
            _ => None,
        },
        TypedExpr::Boolean(truth) => match &**truth {
            TruthExpr::Column(place) => column_at(ColumnKind::Number(NumberKind::Boolean), place),
            _ => None,
        },
        TypedExpr::Date(date) => match date {
            DateExpr::Column(place) => column_at(ColumnKind::Number(NumberKind::Date), place),
            _ => None,
        },
        TypedExpr::Decimal(number, _) => match &**number {
            NumberExpr::Column(NumberKind::Decimal, place) => column_at(
                ColumnKind::Number(NumberKind::Decimal),
                place,
            ),
            _ => None,
        },
    }
}

/// Returns the column of a kind of numbers at `place`. No number of it is greater in size than `bound`.
fn number_column(
    alloc: Global,
    kind: NumberKind,
    place: usize,
    bound: u128,
) -> Result<TypedExpr, AllocError>
    ensures { IfOk result (λ made. typed_view made ≡ kind_expr place (Number kind) bound) }
{
    match kind {
        NumberKind::Integer => Ok(TypedExpr::Integer(
            Box::new(alloc, NumberExpr::Column(NumberKind::Integer, place))?,
            bound,
        )),
        NumberKind::Boolean => Ok(TypedExpr::Boolean(Box::new(alloc, TruthExpr::Column(place))?)),
        NumberKind::Date => Ok(TypedExpr::Date(DateExpr::Column(place))),
        NumberKind::Decimal => Ok(TypedExpr::Decimal(
            Box::new(alloc, NumberExpr::Column(NumberKind::Decimal, place))?,
            bound,
        )),
    }
}

impl TypedExpr {
    /// Returns the column of `kind` at `place`. No number of it is greater in size than `bound`.
    pub fn column(
        alloc: Global,
        kind: ColumnKind,
        place: usize,
        bound: u128,
    ) -> Result<TypedExpr, AllocError>
        ensures { IfOk result (λ made. typed_view made ≡ kind_expr place kind bound) }
    {
        match kind {
            ColumnKind::Text => Ok(TypedExpr::Text(Box::new(alloc, TextExpr::Column(place))?)),
            ColumnKind::Number(kind) => number_column(alloc, kind, place, bound),
        }
    }

    /// Returns the kind of its values: of `null` that of texts.
    pub fn kind(&self) -> ColumnKind
        ensures { result ≡ expression_kind (typed_view self.now) }
    {
        match self {
            TypedExpr::Null | TypedExpr::Text(_) => ColumnKind::Text,
            TypedExpr::Integer(_, _) => ColumnKind::Number(NumberKind::Integer),
            TypedExpr::Boolean(_) => ColumnKind::Number(NumberKind::Boolean),
            TypedExpr::Date(_) => ColumnKind::Number(NumberKind::Date),
            TypedExpr::Decimal(_, _) => ColumnKind::Number(NumberKind::Decimal),
        }
    }
}

/// A column of a kind is a column of that kind.
pub fn columns_are_columns()
    ensures { ColumnsAreColumns }
{}
