// Rounds: the jobs that run are stepped, again and again, until the finish.
ghost use Rattle.std.specs.Prelude.{◌≡◌, ◌<◌, ◌≤◌, ℕ, Bool, OnErr, length, slice_index_or};
ghost use Rattle.build.specs.Hands.{Backed};
ghost use Rattle.build.specs.Models.{model, status, in_hand};
ghost use Rattle.build.specs.Turns.{runs_as_job};
ghost use Rattle.law.specs.Rounds.{Stepped, RoundsCalled};
ghost use Rattle.law.specs.Sound.{Sound};
ghost use Rattle.rules.specs.Builds.{running_jobs};
ghost use Rattle.rules.specs.Plans.{needed};

use crate::work::Work;
use pool::Lender;
use rules::Refusal;
use std::array;
use tree::MAX_NODES;

impl Work {
    // Of each node whether it is a running job.
    fn jobs_now(&self) -> [bool; MAX_NODES]
        ensures { (k : ℕ) (d : Bool) → k < length result → slice_index_or result k d ≡ runs_as_job (model self.now) k }
    {
        array::from_fn(|n| self.runs_as_job(n as u32))
    }

    // Each job that runs does a step, in rising number. Answers how many they are. Which these are is asked before the first
    // step, since a step may start other jobs.
    fn round<P: Lender>(&mut self, pool: &mut P, buffer: &mut [u8]) -> u32
        requires sound { Sound (status self.old) }
        requires backed { Backed P.Lender.ways pool.old (in_hand self.old.tokens) }
        requires long { needed (model self.old).plan ≤ length buffer.old }
        ensures result { result ≡ length (running_jobs (model self.old)) }
        ensures after { Stepped P.Lender.ways (running_jobs (model self.old)) (status self.old) pool.old buffer.old (status self.new) pool.new buffer.new }
        ensures backed { Backed P.Lender.ways pool.new (in_hand self.new.tokens) }
    {
        let jobs = self.jobs_now();
        let steps = self.count_running();
        for n in 0..self.tree.count() {
            if jobs[n as usize] {
                self.step_on(n, pool, buffer);
            }
        }
        steps
    }

    // Rounds until the finish. Answers the number of steps taken.
    pub(crate) fn rounds<P: Lender>(
        &mut self,
        pool: &mut P,
        buffer: &mut [u8],
    ) -> Result<u32, Refusal>
        requires sound { Sound (status self.old) }
        ensures after { RoundsCalled P.Lender.ways (status self.old) pool.old buffer.old result (status self.new) pool.new buffer.new }
        ensures unaltered { OnErr result (self.new ≡ self.old) }
    {
        self.check_call(pool, buffer.len())?;
        let mut steps = 0;
        while !self.is_finished() {
            steps += self.round(pool, buffer);
        }
        Ok(steps)
    }
}
