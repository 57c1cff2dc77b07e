// A tree in the memory of another.
ghost use Rattle.std.specs.Prelude.{◌≡◌, ◌≤◌, length, if◌then◌else◌, is_ok, IfOk, IsOk, OnOk};
ghost use Rattle.tree.specs.Copying.{room_of};
ghost use Rattle.tree.specs.Questions.{nodes_of, fresh};

use crate::growth::MAX_NODES;
use crate::tree::Tree;
use std::alloc::{AllocError, Global};

impl Tree {
    // A fresh tree with memory for as many nodes as a tree can have.
    pub fn with_room(heap: Global) -> Result<Tree, AllocError>
        ensures result { IfOk result (λ t. (nodes_of t ≡ fresh) × (200 ≤ room_of t)) }
    {
        let mut tree = Tree::new(heap)?;
        tree.make_room(MAX_NODES)?;
        Ok(tree)
    }

    // Has memory for so many nodes, and is else as it was.
    fn make_room(&mut self, count: usize) -> Result<(), AllocError>
        ensures nodes { nodes_of self.new ≡ nodes_of self.old }
        ensures ok { OnOk result (count ≤ room_of self.new) }
        ensures room { room_of self.old ≤ room_of self.new }
        ensures succeeds { count ≤ room_of self.old → IsOk result }
    {
        self.nodes.reserve(count.saturating_sub(self.nodes.len()))
    }

    // Becomes a copy of the other tree, and asks for memory only where its own has no room for it: without it, it stays.
    pub fn copy_from(&mut self, other: &Tree) -> Result<(), AllocError>
        ensures nodes { nodes_of self.new ≡ (if is_ok result then nodes_of other.now else nodes_of self.old) }
        ensures room { room_of self.old ≤ room_of self.new }
        ensures succeeds { length (nodes_of other.now) ≤ room_of self.old → IsOk result }
    {
        self.make_room(other.nodes.len())?;
        self.nodes.clear();
        self.nodes.extend_from_slice(&other.nodes).unwrap();
        self.steps = other.steps;
        Ok(())
    }
}
