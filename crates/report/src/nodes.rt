// The printed lines of a tree.
ghost use Rattle.std.specs.Prelude.{◌≡◌, ◌<◌, ◌++◌, Some, string_bytes, OnOk};
ghost use Rattle.report.specs.Nodes.{kind_text, make_text, node_line, tree_lines};
ghost use Rattle.tree.specs.Questions.{count_of};

use std::alloc::AllocError;
use std::fmt;
use tree::{Kind, Tree};

// The word for a kind of node, as scripts have it.
fn kind_text(kind: Kind) -> &'static str
    ensures result { result.now ≡ kind_text kind }
{
    match kind {
        Kind::Make => "make",
        Kind::Job => "job",
        Kind::Fail => "fail",
    }
}

// The make that a node belongs to, if there is one.
#[derive(Drop)]
struct MakeText(Option<u32>);

impl fmt::Display for MakeText {
    ghost output = { λ text. Some (make_text text.0) };

    fn fmt<W: fmt::Write>(&self, f: &mut fmt::Formatter<W>) -> fmt::Result {
        match self.0 {
            Some(make) => write!(f, " in {make}"),
            None => Ok(()),
        }
    }
}

// The line of node n of a tree.
#[derive(Drop)]
struct NodeLine<'a> {
    tree: &'a Tree,
    n: u32,
    ghost inside: { n < count_of tree.now },
}

impl fmt::Display for NodeLine<'_> {
    ghost output = { λ line. Some (node_line line.tree.now line.n) };

    fn fmt<W: fmt::Write>(&self, f: &mut fmt::Formatter<W>) -> fmt::Result {
        let NodeLine { tree, n } = *self;
        let kind = kind_text(tree.kind(n).unwrap());
        let level = tree.level(n).unwrap();
        let steps = tree.steps(n).unwrap();
        let make = MakeText(tree.make(n).unwrap());
        let wait = if tree.wait(n).unwrap() { " wait" } else { "" };
        writeln!(f, "node {n} {kind} level {level} steps {steps}{make}{wait}")
    }
}

// Adds the lines of all nodes, in rising number: a tree is asked by number, and hands out no iterator over its nodes.
pub fn push_tree(text: &mut String, tree: &Tree) -> Result<(), AllocError>
    ensures after { OnOk result (string_bytes text.new ≡ string_bytes text.old ++ tree_lines tree.now) }
{
    for n in 0..tree.count() {
        write!(text, "{}", NodeLine { tree, n })?;
    }
    Ok(())
}
