// What one line of a script does to a tree that grows.
ghost use Rattle.std.specs.Prelude.{◌≡◌, ◌≤◌, [], IfOk, vec_capacity};
ghost use Rattle.tree.specs.Growth.{start, job as job_line, make as make_line, done as done_line, wait as wait_line};
ghost use Rattle.tree.specs.Growth.{childless, finish as at_end, fault_number, kind_of_job};
ghost use Rattle.tree.specs.Grown.{growth, Grew, Finished};

use crate::growing::Growing;
use crate::node::{Kind, Node, TOP};
use crate::tree::Tree;
use std::alloc::{AllocError, Global};

// Why a tree may not grow so.
#[derive(Clone, Copy, PartialEq, Eq, Debug)]
pub enum TreeFault {
    Steps = 5,
    Level = 6,
    Nodes = 7,
    TotalSteps = 8,
    Done = 9,
    Childless = 10,
}

impl TreeFault {
    pub fn number(&self) -> u32
        ensures result { result ≡ fault_number self.now }
    {
        *self as u32
    }
}

// The most nodes that a tree may have.
pub const MAX_NODES: usize = 200;

const MAX_STEPS: u32 = 20_000;

const MAX_OUTER: usize = 7;

fn job_kind(fails: bool) -> Kind
    ensures result { result ≡ kind_of_job fails }
{
    if fails { Kind::Fail } else { Kind::Job }
}

// The top make alone, in empty lists with room for a whole tree.
fn begun(mut nodes: Vec<Node>, outer: Vec<u32>) -> Growing
    requires room { (200 ≤ vec_capacity nodes) × (7 ≤ vec_capacity outer) }
    requires empty { (nodes.items ≡ []) × (outer.items ≡ []) }
    ensures result { growth result ≡ start }
{
    nodes.push_reserved(TOP);
    Growing {
        nodes,
        outer,
        make: 0,
        steps: 0,
        wait: false,
    }
}

impl Growing {
    // The top make alone.
    pub fn new(heap: Global) -> Result<Growing, AllocError>
        ensures result { IfOk result (λ g. growth g ≡ start) }
    {
        let nodes = Vec::with_capacity(heap, MAX_NODES)?;
        let outer = Vec::with_capacity(heap, MAX_OUTER)?;
        Ok(begun(nodes, outer))
    }

    // The top make alone again, in the memory that is there.
    pub fn restart(self) -> Growing
        ensures result { growth result ≡ start }
    {
        let Growing {
            mut nodes,
            mut outer,
            ..
        } = self;
        nodes.clear();
        outer.clear();
        begun(nodes, outer)
    }

    // A job as the next child of the innermost open make.
    pub fn job(&mut self, fails: bool, steps: u32) -> Result<(), TreeFault>
        ensures after { Grew (job_line fails steps (growth self.old)) result self.old self.new }
    {
        if !(1..=999).contains(&steps) {
            return Err(TreeFault::Steps);
        }
        if self.nodes.len() >= MAX_NODES {
            return Err(TreeFault::Nodes);
        }
        if self.steps + steps > MAX_STEPS {
            return Err(TreeFault::TotalSteps);
        }
        let kind = job_kind(fails);
        let level = self.outer.len() as u32;
        self.nodes.push_reserved(Node {
            kind,
            make: self.make,
            level,
            steps,
            wait: self.wait,
        });
        self.steps += steps;
        self.wait = false;
        Ok(())
    }

    // A nested make as the next child of the innermost open make; it is the innermost from here.
    pub fn make(&mut self) -> Result<(), TreeFault>
        ensures after { Grew (make_line (growth self.old)) result self.old self.new }
    {
        if self.outer.len() >= MAX_OUTER {
            return Err(TreeFault::Level);
        }
        if self.nodes.len() >= MAX_NODES {
            return Err(TreeFault::Nodes);
        }
        let number = self.nodes.len() as u32;
        let outer = self.outer.len() as u32;
        self.nodes.push_reserved(Node {
            kind: Kind::Make,
            make: self.make,
            level: outer + 1,
            steps: 0,
            wait: self.wait,
        });
        self.outer.push_reserved(self.make);
        self.make = number;
        self.wait = false;
        Ok(())
    }

    // Whether the innermost open make has no child yet: it is the last node.
    fn is_childless(&self) -> bool
        ensures result { result ≡ childless (growth self.now) }
    {
        self.make as usize + 1 == self.nodes.len()
    }

    // The innermost open make ends.
    pub fn done(&mut self) -> Result<(), TreeFault>
        ensures after { Grew (done_line (growth self.old)) result self.old self.new }
    {
        let around = *self.outer.last().ok_or(TreeFault::Done)?;
        if self.is_childless() {
            return Err(TreeFault::Childless);
        }
        self.outer.pop();
        self.make = around;
        self.wait = false;
        Ok(())
    }

    // A wait before the next child, if one stands before it.
    pub fn wait(&mut self)
        ensures after { growth self.new ≡ wait_line (growth self.old) }
    {
        self.wait = !self.is_childless();
    }

    // The whole tree.
    pub fn finish(self) -> Result<Tree, TreeFault>
        ensures result { Finished (at_end (growth self)) result }
    {
        if !self.outer.is_empty() {
            return Err(TreeFault::Done);
        }
        if self.is_childless() {
            return Err(TreeFault::Childless);
        }
        let Growing { nodes, steps, .. } = self;
        Ok(Tree { nodes, steps })
    }
}
