// What a tool sees of a pool as it takes its tokens and brings them back.

// A byte, how many of it are in and out, and how many tokens are ready.
#[derive(Clone, Copy, Debug, PartialEq, Eq)]
pub struct Standing {
    pub byte: u8,
    pub tokens_in: u32,
    pub tokens_out: u32,
    pub ready: u32,
}

#[derive(Clone, Copy, Debug, PartialEq, Eq)]
pub enum Event {
    Obtained(Standing),
    Nothing,
    Released(Standing),
}
