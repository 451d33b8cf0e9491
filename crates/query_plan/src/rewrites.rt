//! Plans of the same meaning, with less to do.
ghost use Rattle.std.specs.Prelude.{◌≡◌, IfOk, map};
ghost use Rattle.csvw_meta.specs.Schema.{SchemaOf};
ghost use Rattle.query_plan.specs.Fitting.{IsFitFor};
ghost use Rattle.query_plan.specs.Plan.{node_view, plan_view};
ghost use Rattle.query_plan.specs.Push.{rewritten};
ghost use Rattle.query_plan.specs.Types.{IsTypedPlan};
ghost use Rattle.query_plan.specs.Rewrite.{best_nodes, chosen, rows_needed, MeansTheSame};

use crate::law::{tests_are_passed, unadmitted_blocks_pass_none};
use crate::plan::{Node, Plan};
use crate::push::pushed;
use row_eval::faults_are_foreseen;
use std::alloc::{AllocError, Global};

/// Returns of how many first rows a step has a use; `None` if it is of all.
fn rows_needed(node: &Node) -> Option<u64>
    ensures { result ≡ rows_needed (node_view node.now) }
{
    match node {
        Node::Slice(slice) => slice.room(),
        _ => None,
    }
}

/// Returns a step before one that needs only the first `most` rows.
fn chosen(node: Node, most: Option<u64>) -> Node
    ensures { node_view result ≡ chosen (node_view node) most }
{
    match (node, most) {
        (Node::Sort(items), Some(most)) => Node::Best(items, most),
        (node, _) => node,
    }
}

/// Returns the steps, if the best rows take the place of a whole sort.
fn with_best_rows(alloc: Global, nodes: Vec<Node>) -> Result<Vec<Node>, AllocError>
    ensures { IfOk result (λ made.
        map node_view made.items ≡ best_nodes (map node_view nodes.items)) }
{
    let mut made = Vec::with_capacity(alloc, nodes.len())?;
    let mut held = None;
    for node in nodes {
        if let Some(before) = held {
            made.push(chosen(before, rows_needed(&node)))?;
        }
        held = Some(node);
    }
    if let Some(last) = held {
        made.push(last)?;
    }
    Ok(made)
}

/// Returns a plan that gives the same result on the rows of any table that the plan was typed for. It reads only the blocks that its first filters ask
/// for, and keeps of a whole sort only the rows that are asked for. Its steps name the columns that the plan's do.
pub fn rewrite(alloc: Global, plan: Plan) -> Result<Plan, AllocError>
    ensures rewritten { IfOk result (λ made. plan_view made ≡ rewritten (plan_view plan)) }
    ensures means { IfOk result (λ made. (schema : SchemaOf)
        → IsTypedPlan schema (plan_view plan) → MeansTheSame schema (plan_view plan) (plan_view made)) }
    ensures fits { IfOk result (λ made. (schema : SchemaOf)
        → IsFitFor schema (plan_view plan) → IsFitFor schema (plan_view made)) }
{
    unadmitted_blocks_pass_none();
    faults_are_foreseen();
    tests_are_passed();
    let plan = pushed(alloc, plan)?;
    let Plan { scan, nodes } = plan;
    let nodes = with_best_rows(alloc, nodes)?;
    Ok(Plan { scan, nodes })
}
