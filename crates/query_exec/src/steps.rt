//! The steps of a plan on rows.
ghost use Rattle.std.specs.Prelude.{◌≡◌, [], IfOk, map};
ghost use Rattle.typed_trees.specs.TypedTree.{truth_view};
ghost use Rattle.odata_query.specs.Aggregate.{named_view};
ghost use Rattle.odata_query.specs.Query.{order_view};
ghost use Rattle.query_plan.specs.Fitting.{IsFitNode, NodesFit};
ghost use Rattle.query_plan.specs.Plan.{choosing, filtering, node_result, node_view, nodes_result, sorting};
ghost use Rattle.aggregate_rows.specs.Gathered.{lent_places};
ghost use Rattle.query_exec.specs.Steps.{aggregate_node, GivesInOrder, IsInOrder};

use crate::names::aggregate_names;
use crate::slice::piece_of;
use aggregate_rows::gathered;
use odata_query::{NamedAggregate, OrderBy};
use order_columns::ItemColumns;
use query_plan::Node;
use result_rows::{OrderedRows, Rows, all_numbers};
use row_eval::EvalFault;
use sort_rows::{SortedRows, best_numbers, passing_numbers};
use std::alloc::{AllocError, Global};
use typed_trees::TruthExpr;

/// Returns one row of aggregates, or a row for each group.
fn aggregate(
    alloc: Global,
    input: &Rows,
    places: Option<&[usize]>,
    aggregates: &[NamedAggregate],
) -> Result<OrderedRows, AllocError>
    requires { IsFitNode (aggregate_node (lent_places places) (map named_view aggregates.now))
        input.now }
    ensures { IfOk result (IsInOrder (node_result (aggregate_node (lent_places places.entry)
        (map named_view aggregates.now)) input.now)) }
{
    let _few = input.len(); // 64 bits tell how many rows there are
    let columns = gathered(alloc, input.columns(), places, aggregates)?;
    let names = aggregate_names(alloc, input.names(), places, aggregates)?;
    Ok(OrderedRows::stored(Rows::new(names, columns, input.count())))
}

/// Returns the rows on which a condition is true.
fn filter(alloc: Global, input: Rows, condition: &TruthExpr) -> Result<OrderedRows, EvalFault>
    requires { IsFitNode (filtering (truth_view condition.now)) input }
    ensures { GivesInOrder (node_result (filtering (truth_view condition.now)) input) result }
{
    let all = all_numbers(alloc, input.len())?;
    let numbers = passing_numbers(alloc, input.columns(), all.as_slice(), condition)?;
    let count = input.count();
    let rows = input.with_rows(alloc, numbers.as_slice(), count)?;
    Ok(OrderedRows::stored(rows))
}

/// Returns the rows in the order of items. None of them is moved.
fn sort(alloc: Global, input: Rows, items: &[OrderBy]) -> Result<OrderedRows, EvalFault>
    requires { IsFitNode (sorting (map order_view items.now)) input }
    ensures { GivesInOrder (node_result (sorting (map order_view items.now)) input) result }
{
    let order = SortedRows::of(alloc, input.columns(), items)?;
    Ok(OrderedRows::in_order(input, order, None))
}

/// Returns the first rows in the order of items.
fn best(alloc: Global, input: Rows, items: &[OrderBy], most: u64) -> Result<OrderedRows, EvalFault>
    requires { IsFitNode (choosing (map order_view items.now) most) input }
    ensures { GivesInOrder (node_result (choosing (map order_view items.now) most) input) result }
{
    let all = all_numbers(alloc, input.len())?;
    let columns = ItemColumns::of(input.columns());
    let numbers = best_numbers(alloc, &columns, all, items, most)?;
    let count = input.count();
    let rows = input.with_rows(alloc, numbers.as_slice(), count)?;
    Ok(OrderedRows::stored(rows))
}

/// Returns what a step makes of rows in their order.
fn apply(alloc: Global, node: &Node, input: OrderedRows) -> Result<OrderedRows, EvalFault>
    requires untaken { input.taken ≡ 0 }
    requires fits { IsFitNode (node_view node.now) input.rows }
    ensures { GivesInOrder (node_result (node_view node.now) input.rows) result }
{
    match node {
        Node::Filter(condition) => filter(alloc, input.into_rows(alloc)?, condition),
        Node::Aggregate(aggregates) => {
            Ok(aggregate(alloc, &input.into_rows(alloc)?, None, aggregates)?)
        }
        Node::Group(places, aggregates) => {
            let places = Some(places.as_slice());
            Ok(aggregate(alloc, &input.into_rows(alloc)?, places, aggregates)?)
        }
        Node::Sort(items) => sort(alloc, input.into_rows(alloc)?, items),
        Node::Best(items, most) => best(alloc, input.into_rows(alloc)?, items, *most),
        Node::Slice(slice) => Ok(OrderedRows::stored(piece_of(alloc, input, None, *slice)?)),
        Node::Project(places) => Ok(input.select(alloc, places)?),
    }
}

/// Returns what the steps in turn make of rows in their order.
#[tactic(auto, using(crate::proofs::StepLemmas::begins, crate::proofs::StepLemmas::step_fits, crate::proofs::StepLemmas::step_faults, crate::proofs::StepLemmas::all_through))]
pub(crate) fn apply_all(
    alloc: Global,
    nodes: &[Node],
    input: OrderedRows,
) -> Result<OrderedRows, EvalFault>
    requires untaken { input.taken ≡ 0 }
    requires fit { NodesFit (map node_view nodes.now) input.rows }
    ensures gives { GivesInOrder (nodes_result (map node_view nodes.now) input.rows) result }
    ensures none { IfOk result (λ made. map node_view nodes.now ≡ [] → made ≡ input) }
{
    let mut input = input;
    for node in nodes {
        input = apply(alloc, node, input)?;
    }
    Ok(input)
}
