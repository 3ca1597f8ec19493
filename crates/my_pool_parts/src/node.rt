//! Nodes of a map by number, joined in the order in which they were put.

ghost use Rattle.std.specs.Prelude.{◌≡◌, ℕ, length};
ghost use Rattle.my_pool_parts.specs.Linked.{node_at, changed_at, with_older, with_newer, newest_without, unlinked};

use crate::connection::Place;
use std::collections::BTreeMap;

/// What stands at a number, and the numbers of its neighbours.
#[derive(Clone, Copy)]
pub(crate) struct Node {
    pub(crate) place: Option<Place>,
    /// The one that was put before it.
    pub(crate) older: Option<u64>,
    /// The one that was put after it.
    pub(crate) newer: Option<u64>,
}

impl Node {
    /// The newest number, once this node has left.
    pub(crate) fn newest_without(&self, newest: Option<u64>) -> Option<u64>
        ensures { result ≡ newest_without newest self.now }
    {
        match self.newer {
            Some(_) => newest,
            None => self.older,
        }
    }
}

/// The node of a number, where there is one, has this older neighbour from now on.
fn set_older(nodes: &mut BTreeMap<u64, Node>, number: Option<u64>, older: Option<u64>)
    ensures nodes { (n : ℕ) → node_at nodes.new.entries n
        ≡ changed_at number (with_older older) n (node_at nodes.old.entries n) }
    ensures count { length nodes.new.entries ≡ length nodes.old.entries }
{
    if let Some(number) = number
        && let Some(node) = nodes.get_mut(&number)
    {
        node.older = older;
    }
}

/// The node of a number, where there is one, has this newer neighbour from now on.
pub(crate) fn set_newer(nodes: &mut BTreeMap<u64, Node>, number: Option<u64>, newer: Option<u64>)
    ensures nodes { (n : ℕ) → node_at nodes.new.entries n
        ≡ changed_at number (with_newer newer) n (node_at nodes.old.entries n) }
    ensures count { length nodes.new.entries ≡ length nodes.old.entries }
{
    if let Some(number) = number
        && let Some(node) = nodes.get_mut(&number)
    {
        node.newer = newer;
    }
}

/// The neighbours of a node are each other's from now on.
pub(crate) fn unlink(nodes: &mut BTreeMap<u64, Node>, node: &Node)
    ensures nodes { (n : ℕ) → node_at nodes.new.entries n
        ≡ unlinked node.now n (node_at nodes.old.entries n) }
    ensures count { length nodes.new.entries ≡ length nodes.old.entries }
{
    set_older(nodes, node.newer, node.older);
    set_newer(nodes, node.older, node.newer);
}
