// A tree that grows in script order: its nodes so far, and the makes that are open.
ghost use Rattle.std.specs.Prelude.{◌≡◌, ◌+◌, ◌<◌, ◌≤◌, true, length, vec_capacity};
ghost use Rattle.tree.specs.Nodes.{total};
ghost use Rattle.tree.specs.Kept.{Growable};

use crate::node::Node;

// `make` is the innermost open make, `outer` has those around it, the top make first.
#[derive(Drop)]
pub struct Growing {
    pub(crate) nodes: Vec<Node>,
    pub(crate) outer: Vec<u32>,
    pub(crate) make: u32,
    pub(crate) steps: u32,
    pub(crate) wait: bool,
    ghost room: { (200 ≤ vec_capacity nodes) × (7 ≤ vec_capacity outer) },
    ghost growable: { Growable nodes.items outer.items make },
    ghost summed: { steps ≡ total nodes.items },
    ghost waits: { (wait ≡ true → make + 1 < length nodes.items) },
}
