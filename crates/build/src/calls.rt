// The calls of a build at work: refused as the rules say, or carried out.
ghost use Rattle.std.specs.Prelude.{◌≡◌, ◌≤◌, None, Ok, OnErr, length};
ghost use Rattle.build.specs.Changes.{reach};
ghost use Rattle.build.specs.Keeps.{GoesOn};
ghost use Rattle.build.specs.Models.{model, status};
ghost use Rattle.build.specs.Turning.{Kept};
ghost use Rattle.law.specs.Calls.{Called};
ghost use Rattle.law.specs.Calls as requests;
ghost use Rattle.rules.specs.Plans.{needed};
ghost use Rattle.rules.specs.Refusing.{answer, job_refusal};

use crate::work::Work;
use pool::Lender;
use rules::Refusal;

// Each is its check, what it does, settling and the count; one function with a closure for the second would be no plainer.
impl Work {
    // One step of a job where none of the refusals applies, and then settling.
    pub(crate) fn step_on<P: Lender>(&mut self, n: u32, pool: &mut P, buffer: &mut [u8])
        requires free { job_refusal (model self.old) (P.Lender.ways.means pool.old).outs (length buffer.old) n ≡ None }
        requires going { GoesOn self.old }
        requires within { reach self.old ≤ needed (model self.old).plan }
        ensures after { Called P.Lender.ways (requests.step n) (status self.old) pool.old buffer.old (Ok (answer (model self.new))) (status self.new) pool.new buffer.new }
        ensures kept { Kept P.Lender.ways self.old (reach self.old) self.new pool.new }
    {
        self.work_on(n, pool, buffer);
        self.settle(pool, buffer);
    }

    // One step of a running job, and then settling. Answers the number of running jobs.
    pub(crate) fn step<P: Lender>(
        &mut self,
        n: u32,
        pool: &mut P,
        buffer: &mut [u8],
    ) -> Result<u32, Refusal>
        requires going { GoesOn self.old }
        requires within { reach self.old ≤ needed (model self.old).plan }
        ensures after { Called P.Lender.ways (requests.step n) (status self.old) pool.old buffer.old result (status self.new) pool.new buffer.new }
        ensures unaltered { OnErr result (self.new ≡ self.old) }
    {
        self.check_job(pool, buffer.len(), n)?;
        self.step_on(n, pool, buffer);
        Ok(self.count_running())
    }

    // A running job ends as failed, and then the build settles. Answers the number of running jobs.
    pub(crate) fn kill<P: Lender>(
        &mut self,
        n: u32,
        pool: &mut P,
        buffer: &mut [u8],
    ) -> Result<u32, Refusal>
        requires within { reach self.old ≤ needed (model self.old).plan }
        ensures after { Called P.Lender.ways (requests.kill n) (status self.old) pool.old buffer.old result (status self.new) pool.new buffer.new }
        ensures unaltered { OnErr result (self.new ≡ self.old) }
    {
        self.check_job(pool, buffer.len(), n)?;
        self.kill_one(n, pool, buffer);
        self.settle(pool, buffer);
        Ok(self.count_running())
    }

    // The build settles. Answers the number of running jobs.
    pub(crate) fn poll<P: Lender>(
        &mut self,
        pool: &mut P,
        buffer: &mut [u8],
    ) -> Result<u32, Refusal>
        requires within { reach self.old ≤ needed (model self.old).plan }
        ensures after { Called P.Lender.ways requests.poll (status self.old) pool.old buffer.old result (status self.new) pool.new buffer.new }
        ensures unaltered { OnErr result (self.new ≡ self.old) }
    {
        self.check_call(pool, buffer.len())?;
        self.settle(pool, buffer);
        Ok(self.count_running())
    }
}
