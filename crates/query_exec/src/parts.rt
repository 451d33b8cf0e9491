//! What a plan does to the rows of a block, and what it does to the rows of all blocks together.
ghost use Rattle.std.specs.Prelude.{◌≡◌, ◌++◌, IfOk, map};
ghost use Rattle.odata_query.specs.Query.{optional_numbers};
ghost use Rattle.typed_trees.specs.TypedTree.{boxed_truth};
ghost use Rattle.query_plan.specs.Plan.{leading, node_view, select_nodes};
ghost use Rattle.query_exec.specs.Conditions.{condition_nodes};

use query_plan::Node;
use std::alloc::{AllocError, Global};
use typed_trees::TruthExpr;

/// The parts of a plan.
#[derive(Drop)]
pub(crate) struct Parts {
    /// The conditions that it begins with.
    pub(crate) conditions: Vec<Box<TruthExpr>>,
    /// The columns that it then picks, if it does so.
    pub(crate) places: Option<Vec<usize>>,
    /// The steps after them.
    pub(crate) steps: Vec<Node>,
}

/// Returns the parts of the plan of these steps.
#[tactic(auto, using(crate::proofs::PartsLemmas::leading_are))]
pub(crate) fn split(alloc: Global, nodes: Vec<Node>) -> Result<Parts, AllocError>
    ensures parts { IfOk result (λ p. map node_view nodes.items
        ≡ condition_nodes (map boxed_truth p.conditions.items)
        ++ select_nodes (optional_numbers p.places) ++ map node_view p.steps.items) }
    ensures conditions { IfOk result (λ parts. leading (map node_view nodes.items)
        ≡ map boxed_truth parts.conditions.items) }
{
    let mut conditions = Vec::new(alloc);
    let mut places = None;
    let mut steps = Vec::new(alloc);
    for node in nodes {
        if places.is_some() || !steps.is_empty() {
            steps.push(node)?;
            continue;
        }
        match node {
            Node::Filter(condition) => conditions.push(condition)?,
            Node::Project(picked) => places = Some(picked),
            node => steps.push(node)?,
        }
    }
    Ok(Parts {
        conditions,
        places,
        steps,
    })
}
