// The fixed memory of a pipe.
ghost use Rattle.std.specs.Prelude.{◌≡◌, ℕ, ◌+◌, ◌≤◌, length, slice_index};
ghost use Rattle.pool.specs.Meaning.{count, most_tokens, total};
ghost use Rattle.pipe.specs.Queue.{in_line};

use crate::ring::Ring;
use crate::tally::Tally;

#[derive(Drop)]
pub struct Pipe {
    // the tokens that are in, in the order in which they entered
    pub(crate) line: Ring,
    // how many of each byte are in, and how many out
    pub(crate) ins: Tally,
    pub(crate) outs: Tally,
    ghost few: { length (in_line line) + total (slice_index outs.counts) ≤ most_tokens },
    ghost counted: { (k : ℕ) → slice_index ins.counts k ≡ count k (in_line line) },
    ghost all_in: { total (slice_index ins.counts) ≡ length (in_line line) },
}
