// One node of a tree: a make, a job that ends well or a job that fails.

#[derive(Clone, Copy, PartialEq, Eq, Debug)]
pub enum Kind {
    Make,
    Job,
    Fail,
}

// What the questions tell of a node. Node 0, the top make, belongs to no make and has 0 for it.
#[derive(Clone, Copy, PartialEq, Eq, Debug)]
pub struct Node {
    pub kind: Kind,
    pub make: u32,
    pub level: u32,
    pub steps: u32,
    pub wait: bool,
}

// Node 0 of every tree.
pub(crate) const TOP: Node = Node {
    kind: Kind::Make,
    make: 0,
    level: 0,
    steps: 0,
    wait: false,
};
