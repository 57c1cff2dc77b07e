// Why a node failed: the fault of a job, and of a failed make that of its child that failed first. The place for it is the
// caller's, so that a question with no answer can leave it as it was.
ghost use Rattle.std.specs.Prelude.{◌≡◌};
ghost use Rattle.build.specs.Filling.{shown_fault, no_fault, fault_from, Filled};
ghost use Rattle.build.specs.Models.{model};
ghost use Rattle.rules.specs.Faults.{fault_by};
ghost use Rattle.std.specs.Option.{option_map};

use crate::asking::{is_make, level_of};
use crate::work::Work;
use rules::State;
use schedule::cause::Cause;
use std::alloc::Global;
use tree::Unanswered;

// Why a job failed, which job, its level, the steps that it had done, and the tokens that its make held just before,
// oldest first.
#[derive(Drop)]
pub struct Fault {
    pub cause: Cause,
    pub node: u32,
    pub level: u32,
    pub done: u32,
    pub tokens: Vec<u8>,
}

impl Fault {
    // A place for a fault, with nothing in it.
    pub fn new(heap: Global) -> Fault
        ensures result { shown_fault result ≡ no_fault }
    {
        Fault {
            cause: Cause::Script,
            node: 0,
            level: 0,
            done: 0,
            tokens: Vec::new(heap),
        }
    }
}

// A job that failed, and why.
#[derive(Clone, Copy)]
pub(crate) struct Failure {
    pub(crate) job: u32,
    pub(crate) cause: Cause,
}

impl Work {
    // The failed job that the fault of node n is of: down from a failed make to its child that failed first.
    fn failure(&self, n: u32) -> Option<Failure>
        ensures result { option_map (fault_from (model self.now)) result ≡ fault_by (model self.now) (model self.now).plan.nodes n }
    {
        let mut k = n;
        // each turn goes on to a child, which has a higher number: as many turns as nodes suffice, counted down as the rules do
        for _turns in (0..self.tree.count()).rev() {
            let node = self.progress(k);
            let State::Failed(cause) = node.state else {
                return None;
            };
            if !is_make(&self.tree, k) {
                return Some(Failure { job: k, cause });
            }
            k = node.first_failed?;
        }
        None
    }

    // The fault of node n goes into the place. Answers whether there is one: else, and where it is refused, the place stays
    // as it was.
    pub(crate) fn fault(&self, heap: Global, n: u32, place: &mut Fault) -> Result<bool, Unanswered>
        ensures after { Filled (model self.now) n place.old result place.new }
    {
        self.node(n)?;
        let Some(failure) = self.failure(n) else {
            return Ok(false);
        };
        let tokens = self.losses.tokens_at(heap, failure.job)?;
        *place = Fault {
            cause: failure.cause,
            node: failure.job,
            level: level_of(&self.tree, failure.job),
            done: self.progress(failure.job).done,
            tokens,
        };
        Ok(true)
    }
}
