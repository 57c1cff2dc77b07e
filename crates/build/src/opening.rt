// Opening a build.
ghost use Rattle.std.specs.Prelude.{◌≡◌, ◌+◌, ◌<◌, ◌≤◌, false, length, IfOk, OnErr};
ghost use Rattle.build.specs.Changes.{Changed, reach};
ghost use Rattle.build.specs.Models.{model, status};
ghost use Rattle.build.specs.Opening.{Fresh};
ghost use Rattle.law.specs.Calls.{Opened};
ghost use Rattle.pool.specs.Meaning.{total};
ghost use Rattle.rules.specs.Builds.{at, in_state};
ghost use Rattle.rules.specs.Calls.{bit};
ghost use Rattle.rules.specs.Plans.{plan_of};
ghost use Rattle.rules.specs.declared.progress.State.TheVariants.{Waiting, Running};
ghost use Rattle.schedule.specs.declared.record.Record.TheVariants.{Open};
ghost use Rattle.tree.specs.Questions.{nodes_of, fresh};

use crate::losses::Losses;
use crate::refusals::check_open;
use crate::searches::UNBEGUN;
use crate::tokens::Tokens;
use crate::work::Work;
use pool::{Lender, Pool};
use rules::{Event, Refusal};
use schedule::record::Record;
use std::alloc::{AllocError, Global};
use tree::{MAX_NODES, Tree};

// How many tokens are in the pool. A chain ending in `sum` was tried: its proof did not close over all bytes.
fn total_in<P: Lender>(pool: &P) -> u32
    ensures { result ≡ total (P.Lender.ways.means pool.now).ins }
{
    let mut tokens = 0;
    for byte in 0..=255u8 {
        tokens += pool.count_in(byte);
    }
    tokens
}

// A build of a fresh tree that has not begun, with memory for every tree.
pub(crate) fn unopened(heap: Global) -> Result<Work, AllocError>
    ensures result { IfOk result (λ e. Fresh e.tree false e × (nodes_of e.tree ≡ fresh)) }
{
    let tree = Tree::with_room(heap)?;
    let count = tree.count() as usize;
    let mut nodes = Vec::with_capacity(heap, MAX_NODES)?;
    nodes.resize(count, UNBEGUN)?;
    let held = Vec::with_capacity(heap, MAX_NODES)?;
    let jobs = Vec::with_capacity(heap, MAX_NODES)?;
    let bytes = Vec::with_capacity(heap, MAX_NODES * MAX_NODES)?;
    let tokens = Tokens { held };
    let losses = Losses { jobs, bytes };
    Ok(Work {
        tree,
        keep: false,
        nodes,
        tokens,
        losses,
        written: 0,
    })
}

impl Work {
    // Becomes a build of the tree that has not begun, in the memory that is there.
    fn renew(&mut self, tree: &Tree, keep: bool)
        ensures after { Fresh tree.now keep self.new }
    {
        let count = tree.count() as usize;
        self.tree.copy_from(tree).unwrap();
        self.keep = keep;
        self.nodes.clear();
        self.nodes.resize(count, UNBEGUN).unwrap();
        self.tokens.held.clear();
        self.losses.jobs.clear();
        self.losses.bytes.clear();
        self.written = 0;
    }

    // The top make is live, on a pool with so many tokens in.
    fn begin(&mut self, tokens: u32, buffer: &mut [u8])
        requires waits { (at (model self.old) 0).state ≡ Waiting }
        requires few { tokens < 64 }
        requires room { reach self.old ≤ length buffer.old }
        ensures after { Changed self.old buffer.old (in_state (model self.old) 0 Running) (Open (tokens + 1) (bit self.old.keep) (model self.old).plan.nodes) 0 self.new buffer.new }
    {
        self.nodes[0].accept(Event::Start);
        let keep = u8::from(self.keep);
        let nodes = self.tree.count() as u8;
        self.note(
            Record::Open {
                limit: (tokens + 1) as u8,
                keep,
                nodes,
            },
            buffer,
        );
    }

    // A fresh build of the tree, which settles, in place of what was here. Answers the number of running jobs.
    pub(crate) fn open<P: Pool>(
        &mut self,
        tree: &Tree,
        keep: bool,
        pool: &mut P,
        buffer: &mut [u8],
    ) -> Result<u32, Refusal>
        ensures after { Opened P.Lender.ways (plan_of (nodes_of tree.now)) keep (status self.old) pool.old buffer.old result (status self.new) pool.new buffer.new }
        ensures unaltered { OnErr result (self.new ≡ self.old) }
    {
        check_open(tree, pool, buffer.len())?;
        let tokens = total_in(pool);
        self.renew(tree, keep);
        self.begin(tokens, buffer);
        self.settle(pool, buffer);
        Ok(self.count_running())
    }
}
