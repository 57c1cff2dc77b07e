// The limits that all pools share.
ghost use Rattle.std.specs.Prelude.{◌≡◌, ◌<◌, ◌≤◌, MatchResult};
ghost use Rattle.pool.specs.Meaning.{highest_reading, most_tokens};
ghost use Rattle.pool.specs.declared.refusals.Refusal.TheVariants.{ReadingTooHigh, TooManyTokens};

use crate::refusals::Refusal;

// A pool has at most so many tokens, in and out together.
pub const MOST_TOKENS: u32 = 63;

// The highest load reading that a pool hears, in hundredths.
pub const HIGHEST_READING: u32 = 100_000;

// Refuses more tokens than a pool may have.
pub fn check_count(count: usize) -> Result<(), Refusal>
    ensures result { MatchResult result (λ _. count ≤ most_tokens) (λ e. (e ≡ TooManyTokens) × (most_tokens < count)) }
{
    if count > MOST_TOKENS as usize {
        return Err(Refusal::TooManyTokens);
    }
    Ok(())
}

// Refuses a reading above the highest.
pub fn check_reading(reading: u32) -> Result<(), Refusal>
    ensures result { MatchResult result (λ _. reading ≤ highest_reading) (λ e. (e ≡ ReadingTooHigh) × (highest_reading < reading)) }
{
    if reading > HIGHEST_READING {
        return Err(Refusal::ReadingTooHigh);
    }
    Ok(())
}
