// The tokens in the hands of all makes, in the order in which they were taken.
ghost use Rattle.std.specs.Prelude.{◌≡◌, ◌+◌, ◌<◌, ◌≤◌, ◌∷◌, ◌++◌, map, vec_len, vec_capacity};

// A token in a make's hand.
#[derive(Clone, Copy)]
pub(crate) struct Token {
    pub(crate) by: u32,
    pub(crate) byte: u8,
}

#[derive(Drop)]
pub(crate) struct Tokens {
    pub(crate) held: Vec<Token>,
    // for as many tokens as a tree has nodes
    ghost room: { 200 ≤ vec_capacity held },
}

impl Tokens {
    ghost use Rattle.build.specs.Hands.{in_hands, own_bytes, LastOf, GaveBack};
    ghost use Rattle.build.specs.Models.{held, in_hand};

    // How many tokens of this byte are in hand.
    pub(crate) fn count(&self, byte: u8) -> usize
        ensures { result ≡ in_hands byte (in_hand self.now) }
    {
        self.held.iter().filter(|token| token.byte == byte).count()
    }

    // The make takes a token into its hand.
    pub(crate) fn take_up(&mut self, token: Token)
        requires { vec_len self.old.held < vec_capacity self.old.held }
        ensures after { in_hand self.new ≡ held token ∷ in_hand self.old }
        ensures capacity { vec_capacity self.new.held ≡ vec_capacity self.old.held }
    {
        self.held.push_reserved(token);
    }

    // Where the token stands that the make took last, if it holds any.
    fn last_of(&self, make: u32) -> Option<usize>
        ensures { LastOf make (map held self.now.held.items) result }
    {
        self.held.iter().rposition(|token| token.by == make)
    }

    // The token of the make that goes back: the one that it took last.
    pub(crate) fn give_back(&mut self, make: u32) -> Option<u8>
        ensures after { GaveBack make (in_hand self.old) result (in_hand self.new) }
        ensures capacity { vec_capacity self.new.held ≡ vec_capacity self.old.held }
    {
        let last = self.last_of(make)?;
        Some(self.held.remove(last).byte)
    }

    // Adds the bytes of the make's tokens, oldest first.
    pub(crate) fn add_bytes(&self, make: u32, bytes: &mut Vec<u8>)
        requires room { vec_len bytes.old + vec_len self.now.held ≤ vec_capacity bytes.old }
        ensures after { bytes.new.items ≡ bytes.old.items ++ own_bytes make (in_hand self.now) }
        ensures len { vec_len bytes.new ≤ vec_len bytes.old + vec_len self.now.held }
        ensures capacity { vec_capacity bytes.new ≡ vec_capacity bytes.old }
    {
        for token in &self.held {
            if token.by == make {
                bytes.push_reserved(token.byte);
            }
        }
    }
}
