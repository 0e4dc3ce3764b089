//! Skips values on a tape.
ghost use Rattle.std.specs.Prelude.{◌≡◌, ◌<◌, ◌≤◌, ℕ, List, length, drop, slice_index_or};
ghost use Rattle.mes_json.specs.Cursor.{token_of, tokens_held};
ghost use Rattle.mes_json.specs.Passing.{depth_after, following};
ghost use Rattle.mes_json.specs.Lengths.{TellLengths};
ghost use Rattle.mes_json.specs.declared.tape.Node.TheVariants.{End};

use crate::tape::Node;

/// Returns the first node, or `Node::End` if there is no node.
pub(crate) fn first(nodes: &[Node]) -> Node
    ensures { result ≡ slice_index_or nodes.now 0 End }
{
    nodes.first().copied().unwrap_or(Node::End)
}

/// Returns the nodes after the value that begins with the first node.
pub(crate) fn following_value(nodes: &[Node]) -> &[Node]
    requires { TellLengths nodes.now }
    ensures held { (texts : List ℕ)
        → tokens_held texts result.now ≡ following 0 (tokens_held texts nodes.now) }
    ensures rest { (n : ℕ) × (result.now ≡ drop n nodes.now) }
{
    &nodes[nodes_of_value(nodes)..]
}

/// Returns the number of nodes of the value that begins with the first node.
#[inline(always)]
fn nodes_of_value(nodes: &[Node]) -> usize
    requires { TellLengths nodes.now }
    ensures following { (texts : List ℕ)
        → following 0 (tokens_held texts nodes.now) ≡ drop result (tokens_held texts nodes.now) }
    ensures inside { result ≤ length nodes.now }
{
    match nodes.first() {
        None => 0,
        Some(node) => match node.reported() {
            Some(length) => length + 1,
            None => count_nodes(nodes),
        },
    }
}

/// Like `nodes_of_value`, but counts up to the node after which no array or object is open.
fn count_nodes(nodes: &[Node]) -> usize
    ensures following { (texts : List ℕ)
        → following 0 (tokens_held texts nodes.now) ≡ drop result (tokens_held texts nodes.now) }
    ensures inside { result ≤ length nodes.now }
{
    let mut depth = 0;
    for (i, node) in nodes.iter().enumerate() {
        depth = depth_after(depth, *node);
        if depth == 0 {
            return i + 1;
        }
    }
    nodes.len()
}

/// Returns the number of arrays and objects open after `node`, if `depth` are open before it.
fn depth_after(depth: usize, node: Node) -> usize
    requires { depth < usize.MAX }
    ensures { (texts : List ℕ) → result ≡ depth_after depth (token_of texts node) }
{
    match node {
        Node::List { .. } | Node::Map { .. } => depth + 1,
        Node::End => depth.saturating_sub(1),
        _ => depth,
    }
}
