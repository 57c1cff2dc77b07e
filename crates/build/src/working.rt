// One step of a job, and a kill.
ghost use Rattle.std.specs.Prelude.{◌≡◌, ◌<◌, ◌≤◌, false, length};
ghost use Rattle.build.specs.Changes.{here, reach};
ghost use Rattle.build.specs.Hands.{Backed};
ghost use Rattle.build.specs.Leads.{Leads};
ghost use Rattle.build.specs.Models.{model, in_hand};
ghost use Rattle.build.specs.Turning.{Kept};
ghost use Rattle.build.specs.Working.{Stepped, worked};
ghost use Rattle.law.specs.Answers.{answering};
ghost use Rattle.rules.specs.Builds.{at};
ghost use Rattle.rules.specs.Calls.{last_step, noted};
ghost use Rattle.rules.specs.Ending.{end_node};
ghost use Rattle.rules.specs.Events.{state_of};
ghost use Rattle.rules.specs.Plans.{is_make};
ghost use Rattle.rules.specs.declared.progress.State.TheVariants.{Running, Failed};
ghost use Rattle.schedule.specs.declared.cause.Cause.TheVariants as causes;
ghost use Rattle.schedule.specs.declared.record.Record.TheVariants as records;

use crate::asking::{kind_of, steps_of};
use crate::end::End;
use crate::work::Work;
use pool::Lender;
use rules::Event;
use schedule::cause::Cause;
use schedule::record::Record;
use tree::Kind;

// How a job ends after its last step.
fn last_end(kind: Kind) -> Result<(), Cause>
    ensures { state_of result ≡ last_step kind }
{
    match kind {
        Kind::Make | Kind::Job => Ok(()),
        Kind::Fail => Err(Cause::Script),
    }
}

impl Work {
    // Job n does a step.
    fn step_one(&mut self, n: u32, buffer: &mut [u8])
        requires job { (n < (model self.old).plan.nodes) × (is_make (model self.old).plan n ≡ false) }
        requires runs { (at (model self.old) n).state ≡ Running }
        requires left { (at (model self.old) n).done < (model self.old).plan.steps n }
        requires room { reach self.old ≤ length buffer.old }
        ensures after { Stepped n self.old buffer.old self.new buffer.new }
    {
        let steps = steps_of(&self.tree, n);
        self.nodes[n as usize].accept(Event::Step(steps));
        self.note(Record::Step { job: n as u8 }, buffer);
    }

    // Job n does a step, and ends with its last one.
    pub(crate) fn work_on<P: Lender>(&mut self, n: u32, pool: &mut P, buffer: &mut [u8])
        requires backed { Backed P.Lender.ways pool.old (in_hand self.old.tokens) }
        requires job { (n < (model self.old).plan.nodes) × (is_make (model self.old).plan n ≡ false) }
        requires runs { (at (model self.old) n).state ≡ Running }
        requires left { (at (model self.old) n).done < (model self.old).plan.steps n }
        requires room { reach self.old ≤ length buffer.old }
        ensures after { Leads P.Lender.ways (worked answering n) (λ r. r) (here self.old pool.old buffer.old) (here self.new pool.new buffer.new) }
        ensures kept { Kept P.Lender.ways self.old (reach self.old) self.new pool.new }
    {
        self.step_one(n, buffer);
        if self.progress(n).done == steps_of(&self.tree, n) {
            let how = last_end(kind_of(&self.tree, n));
            self.end(End { node: n, how }, pool, buffer);
        }
    }

    // Job n is killed.
    pub(crate) fn kill_one<P: Lender>(&mut self, n: u32, pool: &mut P, buffer: &mut [u8])
        requires backed { Backed P.Lender.ways pool.old (in_hand self.old.tokens) }
        requires node { n < (model self.old).plan.nodes }
        requires runs { (at (model self.old) n).state ≡ Running }
        requires room { reach self.old ≤ length buffer.old }
        ensures after { Leads P.Lender.ways (λ r. end_node answering (Failed causes.Kill) n (noted (records.Kill n) r)) (λ r. r) (here self.old pool.old buffer.old) (here self.new pool.new buffer.new) }
        ensures kept { Kept P.Lender.ways self.old (reach self.old) self.new pool.new }
    {
        self.note(Record::Kill { job: n as u8 }, buffer);
        let how = Err(Cause::Kill);
        self.end(End { node: n, how }, pool, buffer);
    }
}
