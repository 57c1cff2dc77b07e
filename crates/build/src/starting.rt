// Starting what may start.
ghost use Rattle.std.specs.Prelude.{◌<◌, ◌≤◌, ◌∷◌, length};
ghost use Rattle.build.specs.Changes.{Changed, MayStart, here, reach};
ghost use Rattle.build.specs.Hands.{Backed};
ghost use Rattle.build.specs.Leads.{Ends};
ghost use Rattle.build.specs.Models.{model, in_hand, may_start};
ghost use Rattle.build.specs.Turning.{Turned, Kept};
ghost use Rattle.law.specs.Answers.{answering};
ghost use Rattle.rules.specs.Builds.{in_state, with_tokens};
ghost use Rattle.rules.specs.Settling.{settle};
ghost use Rattle.rules.specs.declared.progress.State.TheVariants.{Running};
ghost use Rattle.schedule.specs.declared.record.Record.TheVariants.{StartInSlot, StartWithToken};

use crate::start::Start;
use crate::tokens::Token;
use crate::work::Work;
use pool::Lender;
use rules::Event;
use schedule::record::Record;

impl Work {
    // The child runs, in the make's implicit slot.
    fn start_in_slot(&mut self, start: Start, buffer: &mut [u8])
        requires start { MayStart (model self.old) (may_start start) }
        requires room { reach self.old ≤ length buffer.old }
        ensures after { Changed self.old buffer.old (in_state (model self.old) start.child Running) (StartInSlot start.make start.child) 0 self.new buffer.new }
    {
        self.nodes[start.child as usize].accept(Event::Start);
        self.note(
            Record::StartInSlot {
                make: start.make as u8,
                child: start.child as u8,
            },
            buffer,
        );
    }

    // The child runs, with a token that the make took.
    fn start_with_token(&mut self, start: Start, byte: u8, buffer: &mut [u8])
        requires start { MayStart (model self.old) (may_start start) }
        requires room { reach self.old ≤ length buffer.old }
        ensures after { Changed self.old buffer.old (with_tokens (in_state (model self.old) start.child Running) (record { by = start.make; byte = byte } ∷ (model self.old).tokens)) (StartWithToken start.make start.child byte) 0 self.new buffer.new }
    {
        self.nodes[start.child as usize].accept(Event::Start);
        self.tokens.take_up(Token {
            by: start.make,
            byte,
        });
        self.note(
            Record::StartWithToken {
                make: start.make as u8,
                child: start.child as u8,
                token: byte,
            },
            buffer,
        );
    }

    // Makes the next start that may be made: in an implicit slot as long as one is free, else with a token. Answers whether
    // one was made.
    fn start_one<P: Lender>(&mut self, pool: &mut P, buffer: &mut [u8]) -> bool
        requires backed { Backed P.Lender.ways pool.old (in_hand self.old.tokens) }
        requires room { reach self.old ≤ length buffer.old }
        ensures after { Turned P.Lender.ways (here self.old pool.old buffer.old) result (here self.new pool.new buffer.new) }
        ensures kept { Kept P.Lender.ways self.old (reach self.old) self.new pool.new }
    {
        if let Some(start) = self.next_in_slot() {
            self.start_in_slot(start, buffer);
            return true;
        }
        let Some(start) = self.next_with_token() else {
            return false;
        };
        let Some(byte) = pool.take() else {
            return false;
        };
        self.start_with_token(start, byte, buffer);
        true
    }

    // Starts until no token comes or nothing may start.
    pub(crate) fn settle<P: Lender>(&mut self, pool: &mut P, buffer: &mut [u8])
        requires backed { Backed P.Lender.ways pool.old (in_hand self.old.tokens) }
        requires room { reach self.old ≤ length buffer.old }
        ensures after { Ends P.Lender.ways (settle answering) (here self.old pool.old buffer.old) (here self.new pool.new buffer.new) }
        ensures kept { Kept P.Lender.ways self.old (reach self.old) self.new pool.new }
    {
        while self.start_one(pool, buffer) {}
    }
}
