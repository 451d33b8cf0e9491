//! Plans that read only the blocks that the filters which they begin with ask for.
ghost use Rattle.std.specs.Prelude.{◌≡◌, IfOk, OnOk, map};
ghost use Rattle.std.specs.List.{filter_map, list_any};
ghost use Rattle.typed_trees.specs.CanFault.{truth_can_fault as truth_can_fault_of};
ghost use Rattle.typed_trees.specs.TypedTree.{truth_view};
ghost use Rattle.query_plan.specs.Plan.{filtering, leading, node_view, plan_view, Adds};
ghost use Rattle.query_plan.specs.Scan.{test_view};
ghost use Rattle.query_plan.specs.Tests.{test_of as test_of_condition};
ghost use Rattle.query_plan.specs.Push.{conjuncts, early_stop as early_stop_of, may_be_pushed as may_be_pushed_of, pushed as pushed_of, split_nodes as split_nodes_of};

use crate::plan::{Node, Plan};
use crate::scan::{ColumnTest, Scan};
use crate::test::test_of;
use std::alloc::{AllocError, Global};
use typed_trees::{TruthExpr, truth_can_fault};

/// Returns true if a filter that comes first may divide by zero.
fn filters_can_fault(nodes: &[Node]) -> bool
    ensures { result ≡ list_any truth_can_fault_of (leading (map node_view nodes.now)) }
{
    for node in nodes {
        match node {
            Node::Filter(condition) => {
                if truth_can_fault(condition) {
                    return true;
                }
            }
            _ => return false,
        }
    }
    false
}

/// Returns how many rows that pass the filters that come first are looked for: None, if all are.
fn early_stop(nodes: &[Node]) -> Option<u64>
    ensures { result ≡ early_stop_of (map node_view nodes.now) }
{
    for node in nodes {
        match node {
            Node::Filter(_) => {}
            Node::Slice(slice) => return slice.room(),
            _ => return None,
        }
    }
    None
}

/// Returns a filter for each side of `and`.
fn push_conjuncts(
    alloc: Global,
    nodes: &mut Vec<Node>,
    condition: TruthExpr,
) -> Result<(), AllocError>
    ensures { OnOk result
        (Adds nodes.old (map filtering (conjuncts (truth_view condition))) nodes.new) }
{
    match condition {
        TruthExpr::And(left, right) => {
            push_conjuncts(alloc, nodes, Box::into_inner(left))?;
            push_conjuncts(alloc, nodes, Box::into_inner(right))
        }
        condition => {
            nodes.push(Node::Filter(Box::new(alloc, condition)?))?;
            Ok(())
        }
    }
}

/// Returns the steps, with the filters that come first split at `and`.
fn split_nodes(alloc: Global, nodes: Vec<Node>) -> Result<Vec<Node>, AllocError>
    ensures { IfOk result (λ made.
        map node_view made.items ≡ split_nodes_of (map node_view nodes.items)) }
{
    let mut made = Vec::new(alloc);
    let mut leads = true;
    for node in nodes {
        match node {
            Node::Filter(condition) if leads => push_conjuncts(
                alloc,
                &mut made,
                Box::into_inner(condition),
            )?,
            node => {
                leads = false;
                made.push(node)?;
            }
        }
    }
    Ok(made)
}

/// Returns the tests among the filters that come first.
fn tests_of(alloc: Global, nodes: &[Node]) -> Result<Vec<ColumnTest>, AllocError>
    ensures { IfOk result (λ tests. map test_view tests.items
        ≡ filter_map test_of_condition (leading (map node_view nodes.now))) }
{
    let mut tests = Vec::new(alloc);
    for node in nodes {
        let Node::Filter(condition) = node else {
            return Ok(tests);
        };
        if let Some(test) = test_of(alloc, condition)? {
            tests.push(test)?;
        }
    }
    Ok(tests)
}

/// Returns true if the scan reads every block, and none of the filters that come first may divide by zero.
fn may_be_pushed(plan: &Plan) -> bool
    ensures { result ≡ may_be_pushed_of (plan_view plan.now) }
{
    plan.scan.is_bare() && !filters_can_fault(&plan.nodes)
}

/// Returns a plan that reads fewer blocks, if its scan reads every block and none of the filters that come first may divide by zero: these are
/// split at `and`, the scan has the tests among them, and it stops early.
pub fn pushed(alloc: Global, plan: Plan) -> Result<Plan, AllocError>
    ensures { IfOk result (λ made. plan_view made ≡ pushed_of (plan_view plan)) }
{
    if !may_be_pushed(&plan) {
        return Ok(plan);
    }
    let stop = early_stop(&plan.nodes);
    let nodes = split_nodes(alloc, plan.nodes)?;
    let tests = tests_of(alloc, &nodes)?;
    Ok(Plan {
        scan: Scan { tests, stop },
        nodes,
    })
}
