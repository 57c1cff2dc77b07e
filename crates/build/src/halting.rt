// A halt: no make starts anything more, and every running job ends as failed.
ghost use Rattle.std.specs.Prelude.{◌≡◌, ◌+◌, ◌<◌, ◌≤◌, length, OnErr};
ghost use Rattle.build.specs.Changes.{Remade, here, reach};
ghost use Rattle.build.specs.Hands.{Backed};
ghost use Rattle.build.specs.Leads.{Leads};
ghost use Rattle.build.specs.Models.{model, in_hand, status};
ghost use Rattle.build.specs.Rooms.{unended};
ghost use Rattle.build.specs.Turning.{Kept};
ghost use Rattle.law.specs.Answers.{answering};
ghost use Rattle.law.specs.Calls.{Called};
ghost use Rattle.law.specs.Calls as requests;
ghost use Rattle.rules.specs.Builds.{at, running_jobs, with_node};
ghost use Rattle.rules.specs.Calls.{end_all, stop, stop_all};
ghost use Rattle.rules.specs.Plans.{all_makes, needed};

use crate::asking::is_make;
use crate::end::End;
use crate::work::Work;
use pool::Lender;
use rules::Refusal;
use schedule::cause::Cause;
use schedule::record::Record;

impl Work {
    // Make m starts no further child.
    fn stop_make(&mut self, m: u32)
        requires node { m < (model self.old).plan.nodes }
        ensures after { Remade self.old (with_node (model self.old) m (stop (at (model self.old) m))) self.new }
    {
        self.nodes[m as usize].stop();
    }

    // No make starts a further child. The tree names nodes by number, and each turn changes the build: so no chain.
    fn stop_makes(&mut self)
        ensures after { Remade self.old (stop_all (all_makes (model self.old).plan) (model self.old)) self.new }
    {
        for m in 0..self.tree.count() {
            if is_make(&self.tree, m) {
                self.stop_make(m);
            }
        }
    }

    // Every running job ends as failed by the halt, in rising number; no chain, since each end changes the build.
    fn end_jobs<P: Lender>(&mut self, pool: &mut P, buffer: &mut [u8])
        requires backed { Backed P.Lender.ways pool.old (in_hand self.old.tokens) }
        requires room { reach self.old ≤ length buffer.old }
        ensures after { Leads P.Lender.ways (end_all answering (running_jobs (model self.old))) (λ r. r) (here self.old pool.old buffer.old) (here self.new pool.new buffer.new) }
        ensures kept { Kept P.Lender.ways self.old (reach self.old) self.new pool.new }
    {
        for n in 0..self.tree.count() {
            if self.runs_as_job(n) {
                let how = Err(Cause::Halt);
                self.end(End { node: n, how }, pool, buffer);
            }
        }
    }

    // No make starts anything more, and all running jobs end as failed. Answers the number of running jobs.
    pub(crate) fn halt<P: Lender>(
        &mut self,
        pool: &mut P,
        buffer: &mut [u8],
    ) -> Result<u32, Refusal>
        requires within { reach self.old + unended (at (model self.old) 0).state ≤ needed (model self.old).plan }
        ensures after { Called P.Lender.ways requests.halt (status self.old) pool.old buffer.old result (status self.new) pool.new buffer.new }
        ensures unaltered { OnErr result (self.new ≡ self.old) }
    {
        self.check_call(pool, buffer.len())?;
        self.note(Record::Halt, buffer);
        self.stop_makes();
        self.end_jobs(pool, buffer);
        Ok(self.count_running())
    }
}
