//! Plans, and the plan of a query.
ghost use Rattle.std.specs.Prelude.{◌≡◌, None, IfOk, OnOk, map, option_map};
ghost use Rattle.csvw_meta.specs.Schema.{SchemaOf};
ghost use Rattle.typed_trees.specs.TypedTree.{boxed_truth};
ghost use Rattle.odata_query.specs.Aggregate.{typed_transformation_view, transformations_view};
ghost use Rattle.odata_query.specs.Query.{optional_numbers, order_view, query_typed_view};
ghost use Rattle.query_plan.specs.Fitting.{IsFitFor};
ghost use Rattle.query_meaning.specs.Fitting.{IsTypedFor};
ghost use Rattle.query_plan.specs.Types.{IsTypedPlan};
ghost use Rattle.query_plan.specs.Plan.{apply_nodes, filter_nodes, naive_plan, node_view, order_nodes, plan_view, select_nodes, slice_nodes, slice_view, transformation_node, Adds, MeansQuery};
ghost use Rattle.query_plan.specs.Rewrite.{room_of};

use crate::law::{queries_are_typed, queries_fit};
use crate::scan::Scan;
use odata_query::{NamedAggregate, OrderBy, Typed, TypedTransformation};
use std::alloc::{AllocError, Global};
use typed_trees::TruthExpr;

/// A piece of the rows: all but the first `skip`, and of these the first `top`, or all of them.
#[derive(Clone, Copy)]
pub struct Slice {
    pub skip: u64,
    pub top: Option<u64>,
    /// Whether the number of the rows that come to this step, before any is left out, is the count of the result.
    pub counts: bool,
}

impl Slice {
    /// Returns of how many first rows it is, 0 if it is empty; `None` if it is of all, or counts them.
    pub fn room(self) -> Option<u64>
        ensures { result ≡ room_of self.skip self.top self.counts }
    {
        if self.counts {
            return None;
        }
        match self.top {
            None => None,
            Some(0) => Some(0),
            Some(top) => self.skip.checked_add(top),
        }
    }
}

/// A step of a plan, from a result to a result. Columns are their numbers in what comes to it.
#[derive(Drop)]
pub enum Node {
    /// The rows on which a condition is true.
    Filter(Box<TruthExpr>),
    /// One row of aggregates of all rows.
    Aggregate(Vec<NamedAggregate>),
    /// A row for each group of rows with the same values in some columns: these values, and then aggregates of the group's rows.
    Group(Vec<usize>, Vec<NamedAggregate>),
    /// The rows in the order of items.
    Sort(Vec<OrderBy>),
    /// The first rows in the order of items, up to a number; the items are computed on every row.
    Best(Vec<OrderBy>, u64),
    Slice(Slice),
    /// The values of some columns.
    Project(Vec<usize>),
}

/// What is done to the rows of a table.
#[derive(Drop)]
pub struct Plan {
    /// What is read of the table.
    pub scan: Scan,
    /// The steps on the rows that are read, in turn.
    pub nodes: Vec<Node>,
}

/// Returns the step that a transformation of `$apply` is.
fn node_of(transformation: TypedTransformation) -> Node
    ensures { node_view result ≡ transformation_node (typed_transformation_view transformation) }
{
    match transformation {
        TypedTransformation::Filter(condition) => Node::Filter(condition),
        TypedTransformation::Aggregate(aggregates) => Node::Aggregate(aggregates),
        TypedTransformation::GroupBy(places, aggregates) => Node::Group(places, aggregates),
    }
}

/// Returns the steps of `$apply`.
fn push_apply(nodes: &mut Vec<Node>, apply: Vec<TypedTransformation>) -> Result<(), AllocError>
    ensures { OnOk result (Adds nodes.old (apply_nodes (transformations_view apply)) nodes.new) }
{
    for transformation in apply {
        nodes.push(node_of(transformation))?;
    }
    Ok(())
}

/// Returns the step of `$filter`, if it is there.
fn push_filter(nodes: &mut Vec<Node>, filter: Option<Box<TruthExpr>>) -> Result<(), AllocError>
    ensures { OnOk result
        (Adds nodes.old (filter_nodes (option_map boxed_truth filter)) nodes.new) }
{
    if let Some(filter) = filter {
        nodes.push(Node::Filter(filter))?;
    }
    Ok(())
}

/// Returns the step of `$orderby`, if it has items.
fn push_order(nodes: &mut Vec<Node>, order: Vec<OrderBy>) -> Result<(), AllocError>
    ensures { OnOk result (Adds nodes.old (order_nodes (map order_view order.items)) nodes.new) }
{
    if !order.is_empty() {
        nodes.push(Node::Sort(order))?;
    }
    Ok(())
}

/// Returns the step of `$count`, `$skip` and `$top`, if one of them asks for something.
fn push_slice(nodes: &mut Vec<Node>, slice: Slice) -> Result<(), AllocError>
    ensures { OnOk result (Adds nodes.old (slice_nodes (slice_view slice)) nodes.new) }
{
    match (slice.skip, slice.top, slice.counts) {
        (0, None, false) => {}
        _ => nodes.push(Node::Slice(slice))?,
    }
    Ok(())
}

/// Returns the step of `$select`, if it is there.
fn push_selection(nodes: &mut Vec<Node>, select: Option<Vec<usize>>) -> Result<(), AllocError>
    ensures { OnOk result (Adds nodes.old (select_nodes (optional_numbers select)) nodes.new) }
{
    if let Some(places) = select {
        nodes.push(Node::Project(places))?;
    }
    Ok(())
}

/// Returns the steps of a query, in the query's own order.
fn steps_of(alloc: Global, query: Typed) -> Result<Vec<Node>, AllocError>
    ensures { IfOk result (λ nodes.
        map node_view nodes.items ≡ (naive_plan (query_typed_view query)).nodes) }
{
    let Typed {
        counting,
        apply,
        filter,
        count,
        order,
        skip,
        top,
        select,
        ..
    } = query;
    let mut nodes = Vec::new(alloc);
    push_apply(&mut nodes, apply)?;
    push_filter(&mut nodes, filter)?;
    if counting {
        // the rows are counted, and neither their columns nor they are kept
        let all = Slice {
            skip: 0,
            top: Some(0),
            counts: true,
        };
        push_selection(&mut nodes, Some(Vec::new(alloc)))?;
        push_slice(&mut nodes, all)?;
    } else {
        let asked = Slice {
            skip,
            top,
            counts: count,
        };
        push_order(&mut nodes, order)?;
        push_slice(&mut nodes, asked)?;
        push_selection(&mut nodes, select)?;
    }
    Ok(nodes)
}

/// Returns the plan that reads every block and does what a query says, in the query's own order. A query for a key needs none.
pub fn naive(alloc: Global, query: Typed) -> Result<Plan, AllocError>
    requires { (query_typed_view query).key ≡ None }
    ensures plan { IfOk result (λ plan. plan_view plan ≡ naive_plan (query_typed_view query)) }
    ensures means { IfOk result (λ plan. MeansQuery (plan_view plan) (query_typed_view query)) }
    ensures fits { IfOk result (λ plan. (schema : SchemaOf)
        → IsTypedFor schema (query_typed_view query) → IsFitFor schema (plan_view plan)) }
    ensures typed { IfOk result (λ plan. (schema : SchemaOf)
        → IsTypedFor schema (query_typed_view query) → IsTypedPlan schema (plan_view plan)) }
{
    queries_fit();
    queries_are_typed();
    let nodes = steps_of(alloc, query)?;
    Ok(Plan {
        scan: Scan::bare(alloc),
        nodes,
    })
}
