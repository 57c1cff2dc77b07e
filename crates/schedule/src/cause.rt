// Why a node ended as failed, each cause by the number that stands for it in a record.
ghost use Rattle.std.specs.Prelude.{◌≡◌};
ghost use Rattle.schedule.specs.Causes.{cause_number};

#[derive(Clone, Copy, PartialEq, Eq, Debug)]
pub enum Cause {
    Script = 1,
    Kill = 2,
    FailedChild = 3,
    Halt = 4,
}

impl Cause {
    // The number that stands for the cause in a record.
    pub fn number(self) -> u8
        ensures result { result ≡ cause_number self }
    {
        self as u8
    }
}
