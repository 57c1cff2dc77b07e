// The two counts of a semaphore.
ghost use Rattle.std.specs.Prelude.{◌+◌, ◌≤◌};

#[derive(Drop)]
pub struct Semaphore {
    pub(crate) tokens_in: u32,
    pub(crate) tokens_out: u32,
    ghost few: { tokens_in + tokens_out ≤ 63 },
}
