// What may be asked of a build at work. A number that is not in the tree is refused, and the build is never altered.
ghost use Rattle.std.specs.Prelude.{◌≡◌, length, IfOk};
ghost use Rattle.build.specs.Questions.{told, Listed, ChildlessJob};
ghost use Rattle.build.specs.Models.{model};
ghost use Rattle.rules.specs.Builds.{at, running, tokens_of, finished};
ghost use Rattle.rules.specs.Lists.{those};
ghost use Rattle.rules.specs.Plans.{children, needed};
ghost use Rattle.rules.specs.Startable.{startable};

use crate::work::Work;
use rules::{Progress, State};
use std::alloc::{AllocError, Global};
use tree::Unanswered;

impl Work {
    // How far the node is, if it is in the tree.
    pub(crate) fn node(&self, n: u32) -> Result<Progress, Unanswered>
        ensures { result ≡ told (model self.now) n (at (model self.now) n) }
    {
        if n >= self.tree.count() {
            return Err(Unanswered::NotInTree);
        }
        Ok(self.progress(n))
    }

    // Whether the node waits or runs, or how it ended.
    pub(crate) fn state(&self, n: u32) -> Result<State, Unanswered>
        ensures result { result ≡ told (model self.now) n (at (model self.now) n).state }
    {
        Ok(self.node(n)?.state)
    }

    // The steps that the node has done.
    pub(crate) fn steps_done(&self, n: u32) -> Result<u32, Unanswered>
        ensures result { result ≡ told (model self.now) n (at (model self.now) n).done }
    {
        Ok(self.node(n)?.done)
    }

    // How many of the nodes that belong to make m run.
    fn count_under(&self, m: u32) -> u32
        ensures result { result ≡ length (those (running (model self.now)) (children (model self.now).plan m)) }
    {
        (1..self.tree.count())
            .filter(|k| self.runs_under(*k, m))
            .count() as u32
    }

    // How many children of the make run; 0 for a job, which has none.
    pub(crate) fn running_children(&self, m: u32) -> Result<u32, Unanswered>
        ensures result { result ≡ told (model self.now) m (length (those (running (model self.now)) (children (model self.now).plan m))) }
        ensures law { ChildlessJob (model self.now).plan m }
    {
        self.node(m)?;
        Ok(self.count_under(m))
    }

    // The child that the make may start.
    pub(crate) fn startable_child(&self, m: u32) -> Result<Option<u32>, Unanswered>
        ensures result { result ≡ told (model self.now) m (startable (model self.now) m) }
    {
        self.node(m)?;
        Ok(self.startable(m))
    }

    // The tokens in the make's hand, oldest first.
    fn tokens_of(&self, heap: Global, m: u32) -> Result<Vec<u8>, AllocError>
        ensures result { IfOk result (λ v. v.items ≡ tokens_of (model self.now) m) }
    {
        let mut found = Vec::with_capacity(heap, self.tokens.held.len())?;
        self.tokens.add_bytes(m, &mut found);
        Ok(found)
    }

    // The tokens that the make holds, oldest first.
    pub(crate) fn held_tokens(&self, heap: Global, m: u32) -> Result<Vec<u8>, Unanswered>
        ensures result { Listed (model self.now) m (tokens_of (model self.now) m) result }
    {
        self.node(m)?;
        Ok(self.tokens_of(heap, m)?)
    }

    // Whether the build is finished: its top make has ended.
    pub(crate) fn is_finished(&self) -> bool
        ensures result { result ≡ finished (model self.now) }
    {
        !self.progress(0).state.is_running()
    }

    // The bytes of the schedule that are written.
    pub(crate) fn written_len(&self) -> usize
        ensures result { result ≡ self.now.written }
    {
        self.written
    }

    // The bytes that the whole schedule may need.
    pub(crate) fn needed_len(&self) -> usize
        ensures result { result ≡ needed (model self.now).plan }
    {
        self.tree.schedule_len() as usize
    }
}
