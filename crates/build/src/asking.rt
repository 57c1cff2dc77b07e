// What the engine asks of a tree. Outside the tree the answers are those of the top make.
ghost use Rattle.std.specs.Prelude.{◌≡◌};
ghost use Rattle.rules.specs.Plans.{plan_of, is_make};
ghost use Rattle.tree.specs.Questions.{nodes_of};

use tree::{Kind, Tree};

pub(crate) fn kind_of(tree: &Tree, n: u32) -> Kind
    ensures { result ≡ (plan_of (nodes_of tree.now)).kind n }
{
    tree.kind(n).unwrap_or(Kind::Make)
}

pub(crate) fn is_make(tree: &Tree, n: u32) -> bool
    ensures { result ≡ is_make (plan_of (nodes_of tree.now)) n }
{
    kind_of(tree, n) == Kind::Make
}

// The make that the node belongs to; 0 for the top make.
pub(crate) fn make_of(tree: &Tree, n: u32) -> u32
    ensures { result ≡ (plan_of (nodes_of tree.now)).make n }
{
    tree.make(n).unwrap_or(None).unwrap_or(0)
}

pub(crate) fn steps_of(tree: &Tree, n: u32) -> u32
    ensures { result ≡ (plan_of (nodes_of tree.now)).steps n }
{
    tree.steps(n).unwrap_or(0)
}

// Whether a wait stands before the node.
pub(crate) fn has_wait(tree: &Tree, n: u32) -> bool
    ensures { result ≡ (plan_of (nodes_of tree.now)).wait n }
{
    tree.wait(n).unwrap_or(false)
}

pub(crate) fn level_of(tree: &Tree, n: u32) -> u32
    ensures { result ≡ (plan_of (nodes_of tree.now)).level n }
{
    tree.level(n).unwrap_or(0)
}
