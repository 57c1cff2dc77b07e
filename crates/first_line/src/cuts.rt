// Cutting a text at a byte.
ghost use Rattle.std.specs.Prelude.{◌≡◌};
ghost use Rattle.first_line.specs.Cuts.{cut_at, is_word};
ghost use Rattle.first_line.specs.Shown.{parts};

// What stands before the first byte `mark`, and what stands behind it.
pub fn cut(text: &[u8], mark: u8) -> Option<(&[u8], &[u8])>
    ensures result { parts result ≡ cut_at mark text.now }
{
    let at = text.iter().position(|b| *b == mark)?;
    Some((&text[..at], &text[at + 1..]))
}

// One byte or more, all of which show.
pub fn is_word(text: &[u8]) -> bool
    ensures result { result ≡ is_word text.now }
{
    !text.is_empty() && text.iter().all(|b| b.is_ascii_graphic())
}
