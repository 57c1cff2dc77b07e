// What the rules ask of a build at work: one search each.
ghost use Rattle.std.specs.Prelude.{◌≡◌, true, length, if◌then◌else◌};
ghost use Rattle.build.specs.Models.{model, may_start};
ghost use Rattle.build.specs.Turns.{runs_under, waits_under, runs_as_job, start_by, slot_start_by};
ghost use Rattle.rules.specs.Builds.{at, has_running, has_waiting, running_jobs};
ghost use Rattle.rules.specs.Ending.{is_over};
ghost use Rattle.rules.specs.Plans.{children};
ghost use Rattle.rules.specs.Settling.{next_in_slot, next_with_token};
ghost use Rattle.rules.specs.Startable.{startable, search_children};
ghost use Rattle.std.specs.Option.{option_map};

use crate::asking::{has_wait, is_make, make_of};
use crate::start::Start;
use crate::work::Work;
use rules::{Progress, State};

// A node that has not begun.
pub(crate) const UNBEGUN: Progress = Progress {
    state: State::Waiting,
    done: 0,
    stopped: false,
    first_failed: None,
};

impl Work {
    // How far node n is; one outside the tree has not begun.
    pub(crate) fn progress(&self, n: u32) -> Progress
        ensures { result ≡ at (model self.now) n }
    {
        self.nodes.get(n as usize).copied().unwrap_or(UNBEGUN)
    }

    // Whether node k is a running child of make m. The same of a waiting one, and whether there is one, stand apart: a function
    // over the test would have a clause over closures, and be no plainer.
    pub(crate) fn runs_under(&self, k: u32, m: u32) -> bool
        ensures { result ≡ runs_under (model self.now) m k }
    {
        make_of(&self.tree, k) == m && self.progress(k).state.is_running()
    }

    // Whether node k is a child of make m that has not begun.
    fn waits_under(&self, k: u32, m: u32) -> bool
        ensures { result ≡ waits_under (model self.now) m k }
    {
        make_of(&self.tree, k) == m && self.progress(k).state.is_waiting()
    }

    // Whether node k is a running job.
    pub(crate) fn runs_as_job(&self, k: u32) -> bool
        ensures { result ≡ runs_as_job (model self.now) k }
    {
        self.progress(k).state.is_running() && !is_make(&self.tree, k)
    }

    // Whether some child of the make runs.
    pub(crate) fn has_running(&self, m: u32) -> bool
        ensures { result ≡ has_running (model self.now) m }
    {
        (1..self.tree.count()).any(|k| self.runs_under(k, m))
    }

    // Whether some child of the make has not begun.
    pub(crate) fn has_waiting(&self, m: u32) -> bool
        ensures { result ≡ has_waiting (model self.now) m }
    {
        (1..self.tree.count()).any(|k| self.waits_under(k, m))
    }

    // Whether the make is to end: it is live, no child of it runs, and it is stopped or has none left to start.
    pub(crate) fn is_over(&self, m: u32) -> bool
        ensures { result ≡ is_over (model self.now) m }
    {
        let make = self.progress(m);
        make.state.is_running() && !self.has_running(m) && (make.stopped || !self.has_waiting(m))
    }

    // How many jobs run.
    pub(crate) fn count_running(&self) -> u32
        ensures { result ≡ length (running_jobs (model self.now)) }
    {
        (0..self.tree.count())
            .filter(|k| self.runs_as_job(*k))
            .count() as u32
    }

    // Whether all children before the nearest wait have ended, up to node k: from now on those before its own wait.
    fn freed(&self, k: u32, free: bool, ended: bool) -> bool
        ensures { result ≡ (if (model self.now).plan.wait k then ended else free) }
    {
        if has_wait(&self.tree, k) { ended } else { free }
    }

    // The first child of the make that has not begun, if all before its nearest wait have ended. What is free and what has
    // ended goes on from child to child: so no chain.
    fn first_waiting(&self, m: u32) -> Option<u32>
        ensures { result ≡ search_children (model self.now) true true (children (model self.now).plan m) }
    {
        let mut free = true;
        let mut ended = true;
        for k in 1..self.tree.count() {
            if make_of(&self.tree, k) != m {
                continue;
            }
            free = self.freed(k, free, ended);
            match self.progress(k).state {
                State::Waiting => return free.then_some(k),
                State::Running => ended = false,
                State::Good | State::Failed(_) => {}
            }
        }
        None
    }

    // The child that the make may start.
    pub(crate) fn startable(&self, m: u32) -> Option<u32>
        ensures { result ≡ startable (model self.now) m }
    {
        let make = self.progress(m);
        if !make.state.is_running() || make.stopped {
            return None;
        }
        self.first_waiting(m)
    }

    // The start that node m may make as a make.
    fn start_by(&self, m: u32) -> Option<Start>
        ensures { option_map may_start result ≡ start_by (model self.now) m }
    {
        if !is_make(&self.tree, m) {
            return None;
        }
        let child = self.startable(m)?;
        Some(Start { make: m, child })
    }

    // The start that it may make in its implicit slot.
    fn slot_start_by(&self, m: u32) -> Option<Start>
        ensures { option_map may_start result ≡ slot_start_by (model self.now) m }
    {
        if self.has_running(m) {
            return None;
        }
        self.start_by(m)
    }

    // The start of the lowest make without a running child that may start one: in its implicit slot.
    pub(crate) fn next_in_slot(&self) -> Option<Start>
        ensures { option_map may_start result ≡ next_in_slot (model self.now) }
    {
        (0..self.tree.count()).find_map(|m| self.slot_start_by(m))
    }

    // The start of the make that takes the next token: the lowest that may start a child.
    pub(crate) fn next_with_token(&self) -> Option<Start>
        ensures { option_map may_start result ≡ next_with_token (model self.now) }
    {
        (0..self.tree.count()).find_map(|m| self.start_by(m))
    }
}
