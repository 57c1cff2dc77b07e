// The calls of a build, each of which is handed the pool and the schedule buffer, and what may be asked of it.
ghost use Rattle.std.specs.Prelude.{◌≡◌, length, IfOk, OnErr, OnOk};
ghost use Rattle.build.specs.Filling.{Filled};
ghost use Rattle.build.specs.Places.{place, build_of};
ghost use Rattle.build.specs.Questions.{told, Listed, ChildlessJob};
ghost use Rattle.law.specs.Always.{unopened as never_opened};
ghost use Rattle.law.specs.Calls.{Called, Opened};
ghost use Rattle.law.specs.Calls as requests;
ghost use Rattle.law.specs.Law.{LawFrom, ReadsBackFrom};
ghost use Rattle.law.specs.Rounds.{RoundsCalled, TracesGoOn};
ghost use Rattle.rules.specs.Builds.{at, finished, running, tokens_of};
ghost use Rattle.rules.specs.Lists.{those};
ghost use Rattle.rules.specs.Plans.{plan_of, needed, children};
ghost use Rattle.rules.specs.Refusing.{answer};
ghost use Rattle.rules.specs.Startable.{startable};
ghost use Rattle.tree.specs.Questions.{nodes_of, fresh};

use crate::faults::Fault;
use crate::opening::unopened;
use crate::state::Build;
use pool::{Lender, Pool};
use rules::{Refusal, State};
use std::alloc::{AllocError, Global};
use tree::{Tree, Unanswered};

impl Build {
    // A finished build over a fresh tree, every node waiting and nothing written, with memory for every tree.
    pub fn new(heap: Global) -> Result<Build, AllocError>
        ensures result { IfOk result (λ b. place b ≡ never_opened (plan_of fresh)) }
    {
        let work = unopened(heap)?;
        Ok(Build { work })
    }

    // Opens a build of the tree, which settles, in place of what was here. Answers the number of running jobs.
    pub fn open<P: Pool>(
        &mut self,
        tree: &Tree,
        keep: bool,
        pool: &mut P,
        buffer: &mut [u8],
    ) -> Result<u32, Refusal>
        ensures after { Opened P.Lender.ways (plan_of (nodes_of tree.now)) keep (place self.old) pool.old buffer.old result (place self.new) pool.new buffer.new }
        ensures unaltered { OnErr result (self.new.work ≡ self.old.work) }
        ensures law { OnOk result (LawFrom P.Lender.ways tree.now pool.old (place self.new) pool.new buffer.new) }
        ensures records { OnOk result (ReadsBackFrom P.Lender.ways (place self.new) pool.new buffer.new) }
    {
        self.work.open(tree, keep, pool, buffer)
    }

    // One step of a running job; with its last step it ends. Then the build settles. Answers the number of running jobs.
    pub fn step<P: Lender>(
        &mut self,
        node: u32,
        pool: &mut P,
        buffer: &mut [u8],
    ) -> Result<u32, Refusal>
        ensures after { Called P.Lender.ways (requests.step node) (place self.old) pool.old buffer.old result (place self.new) pool.new buffer.new }
        ensures unaltered { OnErr result (self.new.work ≡ self.old.work) }
    {
        self.work.step(node, pool, buffer)
    }

    // A running job ends as failed. Then the build settles. Answers the number of running jobs.
    pub fn kill<P: Lender>(
        &mut self,
        node: u32,
        pool: &mut P,
        buffer: &mut [u8],
    ) -> Result<u32, Refusal>
        ensures after { Called P.Lender.ways (requests.kill node) (place self.old) pool.old buffer.old result (place self.new) pool.new buffer.new }
        ensures unaltered { OnErr result (self.new.work ≡ self.old.work) }
    {
        self.work.kill(node, pool, buffer)
    }

    // The build settles. Answers the number of running jobs.
    pub fn poll<P: Lender>(&mut self, pool: &mut P, buffer: &mut [u8]) -> Result<u32, Refusal>
        ensures after { Called P.Lender.ways requests.poll (place self.old) pool.old buffer.old result (place self.new) pool.new buffer.new }
        ensures unaltered { OnErr result (self.new.work ≡ self.old.work) }
    {
        self.work.poll(pool, buffer)
    }

    // Every make is stopped, and all running jobs end as failed, in rising number. Answers the number of running jobs.
    pub fn halt<P: Lender>(&mut self, pool: &mut P, buffer: &mut [u8]) -> Result<u32, Refusal>
        ensures after { Called P.Lender.ways requests.halt (place self.old) pool.old buffer.old result (place self.new) pool.new buffer.new }
        ensures unaltered { OnErr result (self.new.work ≡ self.old.work) }
    {
        self.work.halt(pool, buffer)
    }

    // Rounds until the finish: in each, every job that runs at its start does one step, in rising number. Answers the number
    // of steps taken.
    pub fn rounds<P: Lender>(&mut self, pool: &mut P, buffer: &mut [u8]) -> Result<u32, Refusal>
        ensures after { RoundsCalled P.Lender.ways (place self.old) pool.old buffer.old result (place self.new) pool.new buffer.new }
        ensures unaltered { OnErr result (self.new.work ≡ self.old.work) }
        ensures law { OnOk result (TracesGoOn P.Lender.ways (place self.old) pool.old buffer.old (place self.new) pool.new buffer.new) }
    {
        self.work.rounds(pool, buffer)
    }

    // How many bytes of the schedule are written.
    pub fn written_len(&self) -> usize
        ensures result { result ≡ (place self.now).written }
    {
        self.work.written_len()
    }

    // How many bytes a schedule buffer must have.
    pub fn needed_len(&self) -> usize
        ensures result { result ≡ needed (build_of self.now).plan }
    {
        self.work.needed_len()
    }

    // Whether the build is finished.
    pub fn is_finished(&self) -> bool
        ensures result { result ≡ finished (build_of self.now) }
    {
        self.work.is_finished()
    }

    // Whether the node waits or runs, or how it ended.
    pub fn state(&self, node: u32) -> Result<State, Unanswered>
        ensures result { result ≡ told (build_of self.now) node (at (build_of self.now) node).state }
    {
        self.work.state(node)
    }

    // The steps that the node has done.
    pub fn steps_done(&self, node: u32) -> Result<u32, Unanswered>
        ensures result { result ≡ told (build_of self.now) node (at (build_of self.now) node).done }
    {
        self.work.steps_done(node)
    }

    // The tokens that the make holds, oldest first; none for a job.
    pub fn held_tokens(&self, heap: Global, make: u32) -> Result<Vec<u8>, Unanswered>
        ensures result { Listed (build_of self.now) make (tokens_of (build_of self.now) make) result }
    {
        self.work.held_tokens(heap, make)
    }

    // How many children of the make run; 0 for a job, which has none.
    pub fn running_children(&self, make: u32) -> Result<u32, Unanswered>
        ensures result { result ≡ told (build_of self.now) make (length (those (running (build_of self.now)) (children (build_of self.now).plan make))) }
        ensures law { ChildlessJob (build_of self.now).plan make }
    {
        self.work.running_children(make)
    }

    // The child that the make may start, if any.
    pub fn startable_child(&self, make: u32) -> Result<Option<u32>, Unanswered>
        ensures result { result ≡ told (build_of self.now) make (startable (build_of self.now) make) }
    {
        self.work.startable_child(make)
    }

    // How many jobs run.
    pub fn running_jobs(&self) -> u32
        ensures result { result ≡ answer (build_of self.now) }
    {
        self.work.count_running()
    }

    // The fault of the node goes into the place. Answers whether there is one: else, and where it is refused, the place stays
    // as it was.
    pub fn fault(&self, heap: Global, node: u32, place: &mut Fault) -> Result<bool, Unanswered>
        ensures after { Filled (build_of self.now) node place.old result place.new }
    {
        self.work.fault(heap, node, place)
    }
}
