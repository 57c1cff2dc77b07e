// How far a node has come, and what may happen to it.
ghost use Rattle.std.specs.Prelude.{◌≡◌};
ghost use Rattle.rules.specs.Builds.{is_waiting, is_running};
ghost use Rattle.rules.specs.Calls.{stop};
ghost use Rattle.rules.specs.Ending.{marked};
ghost use Rattle.rules.specs.Events.{accepts, accepted};

use schedule::cause::Cause;

// A running make is called live.
#[derive(Clone, Copy)]
pub enum State {
    Waiting,
    Running,
    Good,
    Failed(Cause),
}

impl State {
    // Whether the node has not begun.
    pub fn is_waiting(self) -> bool
        ensures result { result ≡ is_waiting self }
    {
        matches!(self, State::Waiting)
    }

    // Whether the node runs.
    pub fn is_running(self) -> bool
        ensures result { result ≡ is_running self }
    {
        matches!(self, State::Running)
    }
}

// What may happen to a node.
#[derive(Clone, Copy)]
pub enum Event {
    Start,
    // a step of a job that has so many
    Step(u32),
    // it ends well, or as failed for a cause
    End(Result<(), Cause>),
}

#[derive(Clone, Copy)]
pub struct Progress {
    pub state: State,
    // the steps that a job has done
    pub done: u32,
    // a make that starts no further child
    pub stopped: bool,
    // the child of a make that failed first; such a make will end as failed
    pub first_failed: Option<u32>,
}

impl Progress {
    // The event happens to the node, if its state accepts it: waiting a start, running a step that is left or an end.
    // Answers whether it did.
    pub fn accept(&mut self, event: Event) -> bool
        ensures result { result ≡ accepts self.old event }
        ensures after { self.new ≡ accepted self.old event }
    {
        match (self.state, event) {
            (State::Waiting, Event::Start) => self.state = State::Running,
            (State::Running, Event::Step(steps)) if self.done < steps => self.done += 1,
            (State::Running, Event::End(Ok(()))) => self.state = State::Good,
            (State::Running, Event::End(Err(cause))) => self.state = State::Failed(cause),
            _ => return false,
        }
        true
    }

    // A child of the make failed: the first to fail is kept, and the make is stopped unless the build keeps going.
    pub fn mark(&mut self, keep: bool, child: u32)
        ensures after { self.new ≡ marked keep child self.old }
    {
        if !keep {
            self.stopped = true;
        }
        self.first_failed = self.first_failed.or(Some(child));
    }

    // The make starts no further child.
    pub fn stop(&mut self)
        ensures after { self.new ≡ stop self.old }
    {
        self.stopped = true;
    }
}
