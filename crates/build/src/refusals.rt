// Which calls a build at work refuses: the tests in the order of the rules.
ghost use Rattle.std.specs.Prelude.{◌≡◌};
ghost use Rattle.build.specs.Models.{model};
ghost use Rattle.pool.specs.Meaning.{total};
ghost use Rattle.rules.specs.Plans.{plan_of};
ghost use Rattle.rules.specs.Refusing.{short_of, number, open_refusal, call_refusal, job_refusal};
ghost use Rattle.std.specs.Option.{option_map};
ghost use Rattle.std.specs.Result.{result_err};
ghost use Rattle.tree.specs.Questions.{nodes_of};

use crate::work::Work;
use pool::{Lender, Pool};
use rules::Refusal;
use tree::Tree;

// Whether a build of this tree may be opened on this pool, with a buffer of so many bytes.
pub(crate) fn check_open<P: Pool>(tree: &Tree, pool: &P, room: usize) -> Result<(), Refusal>
    ensures { option_map number (result_err result) ≡ open_refusal (plan_of (nodes_of tree.now)) (total (P.Lender.ways.means pool.now).outs) room }
{
    if pool.total_out() > 0 {
        return Err(Refusal::TokensOut);
    }
    if room < tree.schedule_len() as usize {
        return Err(Refusal::ShortBuffer);
    }
    Ok(())
}

impl Work {
    // Whether of some byte fewer are out of the pool than the makes hold.
    fn is_short<P: Lender>(&self, pool: &P) -> bool
        ensures { result ≡ short_of (model self.now) (P.Lender.ways.means pool.now).outs }
    {
        let tokens = &self.tokens;
        tokens.held.iter().rev().any(|token| (pool.count_out(token.byte) as usize)
            < tokens.count(token.byte))
    }

    // Whether a call may be made on this pool, with a buffer of so many bytes.
    pub(crate) fn check_call<P: Lender>(&self, pool: &P, room: usize) -> Result<(), Refusal>
        ensures { option_map number (result_err result) ≡ call_refusal (model self.now) (P.Lender.ways.means pool.now).outs room }
    {
        if room < self.tree.schedule_len() as usize {
            return Err(Refusal::ShortBuffer);
        }
        if !self.progress(0).state.is_running() {
            return Err(Refusal::Finished);
        }
        if self.is_short(pool) {
            return Err(Refusal::TokensMissing);
        }
        Ok(())
    }

    // Whether a step or a kill of node n may be made.
    pub(crate) fn check_job<P: Lender>(&self, pool: &P, room: usize, n: u32) -> Result<(), Refusal>
        ensures { option_map number (result_err result) ≡ job_refusal (model self.now) (P.Lender.ways.means pool.now).outs room n }
    {
        self.check_call(pool, room)?;
        if !self.runs_as_job(n) {
            return Err(Refusal::NotRunningJob);
        }
        Ok(())
    }
}
