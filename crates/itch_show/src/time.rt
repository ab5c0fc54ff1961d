//! Times of day, as users write them.
ghost use Rattle.std.specs.Prelude.{◌≡◌, ◌<◌, ◌≤◌, ◌^◌, ℕ, IfNone, IfSome, length};
ghost use Rattle.itch_show.specs.Times.{ClockText, Decimals, TimeText, TwoDigits};

use itch_layouts::Nanos;
use itch_text::number_of_text;

/// A second, in nanoseconds.
const SECOND: u64 = 1_000_000_000;

/// What one is of the last of so many decimals of a second, in nanoseconds.
const UNITS: [u64; 10] = [
    1_000_000_000,
    100_000_000,
    10_000_000,
    1_000_000,
    100_000,
    10_000,
    1_000,
    100,
    10,
    1,
];

// The number below another that two digits write.
fn two_digits(digits: &[u8], limit: u64) -> Option<u64>
    requires { length digits.now ≡ 2 }
    ensures some { IfSome result (λ number. TwoDigits digits.now number limit) }
    ensures none { IfNone result ((number : ℕ) → TwoDigits digits.now number limit → ⊥) }
{
    let number = number_of_text(digits)?;
    if number < limit { Some(number) } else { None }
}

// The nanoseconds of the decimals of a second.
fn decimals(rest: &[u8]) -> Option<u64>
    ensures some { IfSome result (Decimals rest.now) }
    ensures below { IfSome result (λ nanos. nanos < 10 ^ 9) }
    ensures none { IfNone result ((nanos : ℕ) → Decimals rest.now nanos → ⊥) }
{
    let Some((point, digits)) = rest.split_first() else {
        return Some(0);
    };
    if *point != b'.' || digits.len() > 9 {
        return None;
    }
    let number = number_of_text(digits)?;
    Some(number * UNITS[digits.len()])
}

// The nanoseconds since midnight of a time of the clock.
fn clock_time(word: &[u8]) -> Option<u64>
    ensures some { IfSome result (ClockText word.now) }
    ensures below { IfSome result (λ nanos. nanos < 2 ^ 48) }
    ensures none { IfNone result ((nanos : ℕ) → ClockText word.now nanos → ⊥) }
{
    if word.len() < 8 || word[2] != b':' || word[5] != b':' {
        return None;
    }
    let hour = two_digits(&word[..2], 24)?;
    let minute = two_digits(&word[3..5], 60)?;
    let second = two_digits(&word[6..8], 60)?;
    let fraction = decimals(&word[8..])?;
    Some(((hour * 60 + minute) * 60 + second) * SECOND + fraction)
}

/// The time that a word writes: nanoseconds since midnight in digits, or `HH:MM:SS` of a day of 24 hours, with up to nine
/// decimals of a second after a point, as in `09:30:00.5`. None where it is neither, or no time of six bytes.
pub fn time_of_word(word: &[u8]) -> Option<Nanos>
    ensures some { IfSome result (TimeText word.now) }
    ensures none { IfNone result ((nanos : ℕ) → TimeText word.now nanos → nanos < 2 ^ 48 → ⊥) }
{
    if let Some(nanos) = clock_time(word) {
        return Nanos::new(nanos);
    }
    Nanos::new(number_of_text(word)?)
}
