ghost use Rattle.std.specs.Prelude.{◌≡◌, ℕ, ◌<◌, ◌≤◌, ◌/◌, ◌^◌, ◌++◌, ◌∷◌, ◌*◌, ◌+◌, [], IfOk, OnOk, string_bytes};
ghost use Rattle.std.specs.Fmt.{decimal};
ghost use Rattle.sc_stats.specs.Figures.{half_even, hit_rate, microseconds_each, percent_text, seconds_text, three_digits, two_digits};

use crate::counters::LevelStats;
use crate::span::Span;
use sc_entry::{NoMemory, Text};
use std::alloc::Global;

impl LevelStats {
    /// Hits among all lookups, in hundredths of a percent, from the middle to the even number; 0 of none.
    pub fn hit_rate(&self) -> u64
        ensures { result ≡ hit_rate self.now.hits self.now.misses }
    {
        rate_of(self.hits, self.misses)
    }

    /// The average time of a hit in microseconds, from the middle to the even number; 0 of none.
    pub fn avg_hit_latency(&self) -> u128
        ensures { result ≡ microseconds_each self.now.hit_duration self.now.hits }
    {
        rounded(
            self.hit_duration.nanoseconds(),
            1000 * u128::from(self.hits),
        )
    }

    /// The average time of a write in microseconds, from the middle to the even number; 0 of none.
    pub fn avg_write_latency(&self) -> u128
        ensures { result ≡ microseconds_each self.now.write_duration self.now.writes }
    {
        rounded(
            self.write_duration.nanoseconds(),
            1000 * u128::from(self.writes),
        )
    }
}

/// Hits among hits and misses, in hundredths of a percent.
pub(crate) fn rate_of(hits: u64, misses: u64) -> u64
    ensures { result ≡ hit_rate hits misses }
{
    let all = u128::from(hits) + u128::from(misses);
    rounded(10_000 * u128::from(hits), all) as u64
}

/// A quotient, rounded to the nearest whole number, from the middle to the even one; 0 of none.
pub(crate) fn rounded(number: u128, divisor: u128) -> u128
    ensures { result ≡ half_even number divisor }
{
    if divisor == 0 {
        return 0;
    }
    let whole = number / divisor;
    let below = number % divisor;
    let above = divisor - below;
    if below < above {
        whole
    } else if above < below {
        whole + 1
    } else {
        whole + whole % 2
    }
}

/// Hundredths of a percent, with two decimals.
pub(crate) fn percent_text(alloc: Global, hundredths: u64) -> Result<Text, NoMemory>
    ensures { IfOk result (λ text. text ≡ percent_text hundredths) }
{
    let whole = hundredths / 100;
    let mut text = format!(in alloc; "{whole}.")?;
    push_two_digits(&mut text, (hundredths % 100) as u8)?;
    text.push_str(" %")?;
    Ok(Text::from_string(text))
}

/// Seconds, with milliseconds cut off.
pub(crate) fn seconds_text(alloc: Global, span: &Span) -> Result<Text, NoMemory>
    ensures { IfOk result (λ text. text ≡ seconds_text span.now) }
{
    let whole = span.as_secs();
    let mut text = format!(in alloc; "{whole}.")?;
    push_three_digits(&mut text, (span.subsec_nanos() / 1_000_000) as u16)?;
    text.push_str(" s")?;
    Ok(Text::from_string(text))
}

/// A whole number.
pub(crate) fn number_text(alloc: Global, number: u64) -> Result<Text, NoMemory>
    ensures { IfOk result (λ text. text ≡ decimal number) }
{
    Ok(Text::from_string(format!(in alloc; "{number}")?))
}

fn push_three_digits(text: &mut String, number: u16) -> Result<(), NoMemory>
    requires { number < 1000 }
    ensures { OnOk result (string_bytes text.new ≡ string_bytes text.old ++ three_digits number) }
{
    push_digit(text, (number / 100) as u8)?;
    push_two_digits(text, (number % 100) as u8)?;
    Ok(())
}

fn push_two_digits(text: &mut String, number: u8) -> Result<(), NoMemory>
    requires { number < 100 }
    ensures { OnOk result (string_bytes text.new ≡ string_bytes text.old ++ two_digits number) }
{
    push_digit(text, number / 10)?;
    push_digit(text, number % 10)?;
    Ok(())
}

fn push_digit(text: &mut String, digit: u8) -> Result<(), NoMemory>
    requires { digit < 10 }
    ensures { OnOk result (string_bytes text.new ≡ string_bytes text.old ++ (48 + digit) ∷ []) }
{
    text.push(char::from(b'0' + digit))?;
    Ok(())
}
