//! Queries on a table (OData 4.01 URL Conventions, section 5.1).

use crate::aggregate::TypedTransformation;
use cell_types::Value;
use odata_parse::tree::{Expr, Key, OrderItem, SelectItem, Transformation};
use typed_trees::{TruthExpr, TypedExpr};

/// A key or the options of a query on a table.
#[derive(Drop)]
pub struct Query {
    /// The key in the path, if one row is asked for.
    pub key: Option<Key>,
    /// Whether only the number of rows is asked for, by `/$count` after the path.
    pub counting: bool,
    /// The transformations of `$apply`, none if it is not there.
    pub apply: Vec<Transformation>,
    pub filter: Option<Expr>,
    /// Whether the number of rows is asked for beside them, by `$count=true`.
    pub count: bool,
    /// The items of `$orderby`, none if it is not there.
    pub order: Vec<OrderItem>,
    pub skip: u64,
    pub top: Option<u64>,
    /// The items of `$select`, if it is there.
    pub select: Option<Vec<SelectItem>>,
}

/// An item of `$orderby` with its types.
#[derive(Drop)]
pub struct OrderBy {
    pub expression: TypedExpr,
    pub descending: bool,
}

/// A query that fits its table. After `$apply` the options name the columns of its result, which are numbered from 0 too.
#[derive(Drop)]
pub struct Typed {
    /// A value for each column of the table's key, in the order of the key.
    pub key: Option<Vec<Value<'static>>>,
    pub counting: bool,
    pub apply: Vec<TypedTransformation>,
    pub filter: Option<Box<TruthExpr>>,
    pub count: bool,
    pub order: Vec<OrderBy>,
    pub skip: u64,
    pub top: Option<u64>,
    /// The numbers of the columns that are asked for, rising, if `$select` is there.
    pub select: Option<Vec<usize>>,
}
