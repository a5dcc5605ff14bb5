//! How many nodes trees have.

ghost use Rattle.std.specs.Prelude.{◌≡◌, ◌-◌, ◌^◌, min};
ghost use Rattle.doll_set.specs.Weights as spec;

use doll_erb::Node;

/// How many nodes a tree has at any depth, or 2^32 − 1 where it has more.
#[cycle(count)]
#[tactic(auto, using(crate::proofs::Counts::if_count, crate::proofs::Counts::each_count, crate::proofs::Counts::cache_count))]
pub(crate) fn nodes_in(nodes: &[Node]) -> u32
    ensures { result ≡ min (spec.nodes_in nodes.now) (2 ^ 32 - 1) }
{
    let mut count: u32 = 0;
    for node in nodes {
        count = count.saturating_add(node_count(node));
    }
    count
}

/// How many nodes a node is, with its parts.
#[cycle(count)]
#[tactic(auto, using(crate::proofs::Counts::if_count, crate::proofs::Counts::each_count, crate::proofs::Counts::cache_count))]
fn node_count(node: &Node) -> u32
    ensures { result ≡ min (spec.node_count node.now) (2 ^ 32 - 1) }
{
    match node {
        Node::If {
            arms,
            otherwise,
            ..
        } => {
            let mut count: u32 = 0;
            for arm in arms.as_slice() {
                count = count.saturating_add(nodes_in(arm.body.as_slice()));
            }
            count
                .saturating_add(nodes_in(otherwise.as_slice()))
                .saturating_add(1)
        }
        Node::Each { body, .. } | Node::Cache { body, .. } => {
            nodes_in(body.as_slice()).saturating_add(1)
        }
        _ => 1,
    }
}
