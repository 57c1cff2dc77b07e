// What a first line says, and why one is refused.
ghost use Rattle.std.specs.Prelude.{◌≡◌};
ghost use Rattle.first_line.specs.Choices.{Few, told_choice};
ghost use Rattle.first_line.specs.Numbers.{number};

// The pool that the line asks for.
#[derive(Clone, Copy)]
pub enum PoolChoice<'a> {
    // a pipe with these tokens
    Pipe(&'a [u8]),
    // a semaphore with so many
    Semaphore(u32),
}

#[derive(Clone, Copy)]
pub struct FirstLine<'a> {
    pub pool: PoolChoice<'a>,
    // whether the build goes on after a failure
    pub keep: bool,
    // what stands behind the line
    pub rest: &'a [u8],
    ghost few: { Few (told_choice pool) },
}

#[derive(Clone, Copy, Debug, PartialEq, Eq)]
pub enum Refusal {
    // no form of a first line, or no byte 10
    NoForm = 3,
    // a count that is not one to three digits, the first not 0
    BadCount = 5,
    // more than 63 tokens
    TooManyTokens = 13,
}

impl Refusal {
    // The number under which the refusal is listed.
    pub fn number(&self) -> u32
        ensures result { result ≡ number self.now }
    {
        *self as u32
    }
}
