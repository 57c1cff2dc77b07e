// A tree, with what every tree that can be held keeps.
// Its nodes stand in one list, in script order, since scripts, records and questions name them by number.
ghost use Rattle.std.specs.Prelude.{◌≡◌};
ghost use Rattle.tree.specs.Nodes.{total};
ghost use Rattle.tree.specs.Kept.{Counted, Topped, Placed, Together, Levelled, Sized, Parted, Fed};

use crate::node::Node;

#[derive(Drop)]
pub struct Tree {
    pub(crate) nodes: Vec<Node>,
    pub(crate) steps: u32,
    ghost counted: { Counted nodes.items },
    ghost topped: { Topped nodes.items },
    ghost placed: { Placed nodes.items },
    ghost together: { Together nodes.items },
    ghost levelled: { Levelled nodes.items },
    ghost sized: { Sized nodes.items },
    ghost parted: { Parted nodes.items },
    ghost fed: { Fed nodes.items },
    ghost summed: { steps ≡ total nodes.items },
}
