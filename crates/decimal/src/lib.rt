// Counts as users write them.
#![tactic(auto)]

ghost use Rattle.std.specs.Prelude.{◌≡◌, ◌-◌, ◌≤◌};
ghost use Rattle.decimal.specs.Counts.{count};

// The number that the bytes write: one to three digits, the first of them not 0.
pub fn read_count(text: &[u8]) -> Option<u32>
    ensures result { result ≡ count text.now }
{
    match text {
        [a @ b'1'..=b'9'] => Some(value(*a)),
        [a @ b'1'..=b'9', b @ b'0'..=b'9'] => Some(10 * value(*a) + value(*b)),
        [a @ b'1'..=b'9', b @ b'0'..=b'9', c @ b'0'..=b'9'] => {
            Some(100 * value(*a) + 10 * value(*b) + value(*c))
        }
        _ => None,
    }
}

// The value of a digit.
fn value(digit: u8) -> u32
    requires { 48 ≤ digit }
    ensures { result ≡ digit - 48 }
{
    u32::from(digit - b'0')
}
