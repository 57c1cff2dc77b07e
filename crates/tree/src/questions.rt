// What may be asked of a tree. A number that is not in the tree is refused, and the tree is never altered.
ghost use Rattle.std.specs.Prelude.{◌≡◌, ◌+◌, ◌≤◌, length, drop, IfOk};
ghost use Rattle.tree.specs.Nodes.{at, total};
ghost use Rattle.tree.specs.Questions.{count_of, kind_of, make_of, level_of, steps_of, wait_of, total_of, schedule_of, number_of, asked, told_node};
ghost use Rattle.tree.specs.declared.questions.Unanswered.TheVariants.{NoMemory};
ghost use Rattle.tree.specs.Questions.{nodes_of, fresh, front_of, subtree_of, Listed, ChildlessJob, WholeSubtree};

use crate::node::{Kind, Node, TOP};
use crate::tree::Tree;
use std::alloc::{AllocError, AllocFailed, Global};

// Why a question has no answer. One of them has no number, so the numbers stand apart.
#[derive(Clone, Copy, PartialEq, Eq, Debug)]
pub enum Unanswered {
    NotInTree,
    NoMemory,
}

impl Unanswered {
    // The number of the refusal; want of memory has none.
    pub fn number(&self) -> Option<u32>
        ensures result { result ≡ number_of self.now }
    {
        match self {
            Unanswered::NotInTree => Some(21),
            Unanswered::NoMemory => None,
        }
    }
}

impl From<AllocError> for Unanswered {
    ghost from_gives = { λ _ y. y ≡ NoMemory };

    fn from(_value: AllocError) -> Unanswered {
        Unanswered::NoMemory
    }
}

impl<T: Drop> From<AllocFailed<T>> for Unanswered {
    ghost from_gives = { λ _ y. y ≡ NoMemory };

    fn from(_value: AllocFailed<T>) -> Unanswered {
        Unanswered::NoMemory
    }
}

// Makes stand on levels 0 to 7.
const MAX_LEVELS: u32 = 8;

// The one job of a fresh tree.
const FIRST_JOB: Node = Node {
    kind: Kind::Job,
    make: 0,
    level: 0,
    steps: 1,
    wait: false,
};

impl Tree {
    // One job of one step, ending well, under the top make.
    pub fn new(heap: Global) -> Result<Tree, AllocError>
        ensures result { IfOk result (λ t. nodes_of t ≡ fresh) }
    {
        let nodes = vec![in heap; TOP, FIRST_JOB]?;
        Ok(Tree { nodes, steps: 1 })
    }

    // The node of this number.
    fn node(&self, n: u32) -> Result<&Node, Unanswered>
        ensures result { told_node result ≡ asked self.now n (at (nodes_of self.now) n) }
    {
        self.nodes.get(n as usize).ok_or(Unanswered::NotInTree)
    }

    pub fn count(&self) -> u32
        ensures result { result ≡ count_of self.now }
    {
        self.nodes.len() as u32
    }

    pub fn kind(&self, n: u32) -> Result<Kind, Unanswered>
        ensures result { result ≡ asked self.now n (kind_of self.now n) }
    {
        Ok(self.node(n)?.kind)
    }

    // The make that the node belongs to; none for the top make.
    pub fn make(&self, n: u32) -> Result<Option<u32>, Unanswered>
        ensures result { result ≡ asked self.now n (make_of self.now n) }
    {
        let node = self.node(n)?;
        Ok((n != 0).then_some(node.make))
    }

    pub fn level(&self, n: u32) -> Result<u32, Unanswered>
        ensures result { result ≡ asked self.now n (level_of self.now n) }
    {
        Ok(self.node(n)?.level)
    }

    // The steps of a job; 0 for a make.
    pub fn steps(&self, n: u32) -> Result<u32, Unanswered>
        ensures result { result ≡ asked self.now n (steps_of self.now n) }
    {
        Ok(self.node(n)?.steps)
    }

    // Whether a wait stands before the node.
    pub fn wait(&self, n: u32) -> Result<bool, Unanswered>
        ensures result { result ≡ asked self.now n (wait_of self.now n) }
    {
        Ok(self.node(n)?.wait)
    }

    // The children of a make in order; a job has none.
    pub fn children(&self, heap: Global, n: u32) -> Result<Vec<u32>, Unanswered>
        ensures result { Listed self.now n result }
        ensures law { ChildlessJob self.now n }
    {
        self.node(n)?;
        let children = (1..self.count())
            .zip(&self.nodes[1..])
            .filter_map(|(k, node)| (node.make == n).then_some(k))
            .collect(heap)?;
        Ok(children)
    }

    pub fn total_steps(&self) -> u32
        ensures result { result ≡ total_of self.now }
    {
        self.steps
    }

    // The steps of the node and of all nodes below it.
    pub fn subtree_steps(&self, n: u32) -> Result<u32, Unanswered>
        ensures result { result ≡ asked self.now n (subtree_of self.now n) }
        ensures law { WholeSubtree self.now }
    {
        let node = self.node(n)?;
        let (below, _) = self.below(n, n + 1, MAX_LEVELS);
        Ok(node.steps + below)
    }

    // The steps of the nodes from `first` on that are below node `n`, and the number behind the last of them. As the reader
    // of scripts does, this goes down into each make with one level less, so that the place moves by what lies below it.
    fn below(&self, n: u32, first: u32, levels: u32) -> (u32, u32)
        requires within { first ≤ count_of self.now }
        ensures result { result.0 ≡ total (front_of n (drop first (nodes_of self.now))) }
        ensures behind { result.1 ≡ first + length (front_of n (drop first (nodes_of self.now))) }
    {
        let mut sum = 0;
        let mut next = first;
        while (next as usize) < self.nodes.len() && self.nodes[next as usize].make >= n {
            let node = self.nodes[next as usize];
            sum += node.steps;
            next += 1;
            if node.kind == Kind::Make && levels > 0 {
                let (more, end) = self.below(next - 1, next, levels - 1);
                sum += more;
                next = end;
            }
        }
        (sum, next)
    }

    // The bytes that a schedule of this tree needs.
    pub fn schedule_len(&self) -> u32
        ensures result { result ≡ schedule_of self.now }
    {
        7 + 12 * self.count() + 2 * self.steps
    }
}
