// Reading the first line.
ghost use Rattle.std.specs.Prelude.{◌≡◌};
ghost use Rattle.first_line.specs.Head.{choice, head, keep_of, pipe_of, semaphore_of, told, told_pool, told_second};
ghost use Rattle.decimal.specs.Counts.{count};

use crate::cuts::{cut, is_word};
use crate::types::{FirstLine, PoolChoice, Refusal};
use decimal::read_count;
use pool::MOST_TOKENS;

// What the first line of the input says, with what stands behind it.
pub fn read_first_line(input: &[u8]) -> Result<FirstLine<'_>, Refusal>
    ensures result { told result ≡ head input.now }
{
    let (line, rest) = cut(input, b'\n').ok_or(Refusal::NoForm)?;
    let (first, after) = cut(line, b' ').ok_or(Refusal::NoForm)?;
    let (second, keep) = split_keep(after)?;
    let pool = choose(first, second)?;
    Ok(FirstLine { pool, keep, rest })
}

// The line's second word, and whether `keep` stands behind it.
fn split_keep(after: &[u8]) -> Result<(&[u8], bool), Refusal>
    ensures result { told_second result ≡ keep_of after.now }
{
    match cut(after, b' ') {
        None => Ok((after, false)),
        Some((second, b"keep")) => Ok((second, true)),
        Some(_) => Err(Refusal::NoForm),
    }
}

// The pool that the line's two words ask for.
fn choose<'a>(first: &[u8], second: &'a [u8]) -> Result<PoolChoice<'a>, Refusal>
    ensures result { told_pool result ≡ choice first.now second.now }
{
    if !is_word(second) {
        return Err(Refusal::NoForm);
    }
    match first {
        b"pipe" => pipe_of(second),
        b"sem" => semaphore_of(second),
        _ => Err(Refusal::NoForm),
    }
}

fn pipe_of(tokens: &[u8]) -> Result<PoolChoice<'_>, Refusal>
    ensures result { told_pool result ≡ pipe_of tokens.now }
{
    if tokens.len() > MOST_TOKENS as usize {
        return Err(Refusal::TooManyTokens);
    }
    Ok(PoolChoice::Pipe(tokens))
}

fn semaphore_of(text: &[u8]) -> Result<PoolChoice<'_>, Refusal>
    ensures result { told_pool result ≡ semaphore_of (count text.now) }
{
    let tokens = read_count(text).ok_or(Refusal::BadCount)?;
    if tokens > MOST_TOKENS {
        return Err(Refusal::TooManyTokens);
    }
    Ok(PoolChoice::Semaphore(tokens))
}
