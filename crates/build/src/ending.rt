// What follows when a node ends.
ghost use Rattle.std.specs.Prelude.{◌≡◌, ◌+◌, ◌-◌, ◌<◌, ◌≤◌, length, if◌then◌else◌, vec_len, vec_capacity};
ghost use Rattle.build.specs.Changes.{Changed, Noted, Remade, here, reach};
ghost use Rattle.build.specs.Ended.{ended_build, ended_record, marked_build, noted_at};
ghost use Rattle.build.specs.Leads.{Leads};
ghost use Rattle.build.specs.Hands.{Backed};
ghost use Rattle.build.specs.Lost.{noted_losses, Grown};
ghost use Rattle.build.specs.Models.{model, in_hand};
ghost use Rattle.build.specs.Turning.{Kept};
ghost use Rattle.law.specs.Answers.{answering};
ghost use Rattle.rules.specs.Builds.{at};
ghost use Rattle.rules.specs.Ending.{end_node, ends_so, finish, make_end, mark, put_one};
ghost use Rattle.rules.specs.Events.{state_of};
ghost use Rattle.rules.specs.Lists.{is_some};
ghost use Rattle.rules.specs.Plans.{plan_of};
ghost use Rattle.rules.specs.declared.progress.State.TheVariants.{Running};
ghost use Rattle.schedule.specs.declared.record.Record.TheVariants.{Finished};
ghost use Rattle.tree.specs.Questions.{nodes_of};

use crate::asking::{is_make, make_of};
use crate::end::End;
use crate::losses::Losses;
use crate::tokens::Tokens;
use crate::work::Work;
use pool::Lender;
use rules::Event;
use schedule::cause::Cause;
use schedule::record::Record;
use tree::Tree;

// Notes the tokens of the node's make, for a job that fails.
fn note_loss(tree: &Tree, tokens: &Tokens, end: End, losses: &mut Losses)
    requires listed { vec_len losses.old.jobs < vec_capacity losses.old.jobs }
    requires room { vec_len losses.old.bytes + vec_len tokens.now.held ≤ vec_capacity losses.old.bytes }
    ensures after { noted_losses losses.new ≡ noted_at end.how end.node (plan_of (nodes_of tree.now)) (in_hand tokens.now) (noted_losses losses.old) }
    ensures memory { Grown losses.old (vec_len tokens.now.held) losses.new }
{
    if end.how.is_err() && !is_make(tree, end.node) {
        losses.note(tokens, make_of(tree, end.node), end.node);
    }
}

impl Work {
    // The node ends so: for a job that fails, the tokens of its make are noted.
    fn end_one(&mut self, end: End, buffer: &mut [u8])
        requires node { end.node < (model self.old).plan.nodes }
        requires runs { (at (model self.old) end.node).state ≡ Running }
        requires room { reach self.old ≤ length buffer.old + 2 }
        ensures after { Changed self.old buffer.old (ended_build end.how end.node (model self.old)) (ended_record end.how end.node) 5 self.new buffer.new }
    {
        self.nodes[end.node as usize].accept(Event::End(end.how));
        note_loss(&self.tree, &self.tokens, end, &mut self.losses);
        self.note(end.record(), buffer);
    }

    // The make puts back the token that it took last, if it holds any.
    fn put_one<P: Lender>(&mut self, m: u32, pool: &mut P, buffer: &mut [u8])
        requires backed { Backed P.Lender.ways pool.old (in_hand self.old.tokens) }
        requires byte { m < 256 }
        requires room { reach self.old + 3 ≤ length buffer.old }
        ensures after { Leads P.Lender.ways (put_one answering m) (λ r. r) (here self.old pool.old buffer.old) (here self.new pool.new buffer.new) }
        ensures kept { Kept P.Lender.ways self.old (reach self.old + 3) self.new pool.new }
    {
        let Some(byte) = self.tokens.give_back(m) else {
            return;
        };
        pool.put(byte).unwrap();
        self.note(
            Record::PutBack {
                make: m as u8,
                token: byte,
            },
            buffer,
        );
    }

    // The make of a node that ended so is marked, if it failed.
    fn mark(&mut self, m: u32, end: End)
        requires node { m < (model self.old).plan.nodes }
        ensures after { Remade self.old (marked_build end.how m end.node (model self.old)) self.new }
    {
        if end.how.is_err() {
            self.nodes[m as usize].mark(self.keep, end.node);
        }
    }

    // How the make ends: failed if a child of it failed.
    fn make_end(&self, m: u32) -> Result<(), Cause>
        ensures { state_of result ≡ make_end (at (model self.now) m) }
    {
        match self.progress(m).first_failed {
            Some(_) => Err(Cause::FailedChild),
            None => Ok(()),
        }
    }

    // The build is finished: the record says whether it failed.
    fn finish(&mut self, buffer: &mut [u8])
        requires room { self.old.written + 2 ≤ length buffer.old }
        ensures after { Noted self.old buffer.old (Finished (if is_some (at (model self.old) 0).first_failed then 1 else 0)) self.new buffer.new }
    {
        let failed = self.progress(0).first_failed.is_some();
        self.note(
            Record::Finished {
                failed: u8::from(failed),
            },
            buffer,
        );
    }

    // A child of make m ends so; the make puts a token back, if it holds any, and is marked if the child failed.
    fn end_child<P: Lender>(&mut self, m: u32, end: End, pool: &mut P, buffer: &mut [u8])
        requires backed { Backed P.Lender.ways pool.old (in_hand self.old.tokens) }
        requires nodes { (end.node < (model self.old).plan.nodes) × (m < (model self.old).plan.nodes) }
        requires runs { (at (model self.old) end.node).state ≡ Running }
        requires room { reach self.old ≤ length buffer.old + 2 }
        ensures after { Leads P.Lender.ways (λ r. mark (state_of end.how) m end.node (put_one answering m (ends_so (state_of end.how) end.node r))) (λ r. r) (here self.old pool.old buffer.old) (here self.new pool.new buffer.new) }
        ensures kept { Kept P.Lender.ways self.old (reach self.old - 2) self.new pool.new }
    {
        self.end_one(end, buffer);
        self.put_one(m, pool, buffer);
        self.mark(m, end);
    }

    // The node ends so, and what follows upwards: its make ends if it is over. The end of the top make is the finish.
    pub(crate) fn end<P: Lender>(&mut self, end: End, pool: &mut P, buffer: &mut [u8])
        requires backed { Backed P.Lender.ways pool.old (in_hand self.old.tokens) }
        requires node { end.node < (model self.old).plan.nodes }
        requires runs { (at (model self.old) end.node).state ≡ Running }
        requires room { reach self.old ≤ length buffer.old + 2 }
        ensures after { Leads P.Lender.ways (end_node answering (state_of end.how) end.node) (λ r. r) (here self.old pool.old buffer.old) (here self.new pool.new buffer.new) }
        ensures kept { Kept P.Lender.ways self.old (reach self.old - 2) self.new pool.new }
    {
        if end.node == 0 {
            self.end_one(end, buffer);
            self.finish(buffer);
            return;
        }
        let m = make_of(&self.tree, end.node);
        self.end_child(m, end, pool, buffer);
        if self.is_over(m) {
            let how = self.make_end(m);
            self.end(End { node: m, how }, pool, buffer);
        }
    }
}
