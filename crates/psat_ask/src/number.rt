//! Numbers that words spell.
ghost use Rattle.std.specs.Prelude.{◌≡◌, ◌^◌, ◌<◌, ◌↔◌, ℕ, IsTrue, Some, decimal};
ghost use Rattle.psat_ask.specs.Numbers.{FindsNumber};

use itoa::Buffer;

// The number that a word spells, if it spells one below 2^64.
fn parse_number(word: &str) -> Option<u64>
    ensures { (n : ℕ) → n < 2 ^ 64 → word.now ≡ decimal n → result ≡ Some n }
{
    word.parse::<u64>().ok()
}

// Whether a word is the one spelling of a number: without a sign and without leading zeros.
fn is_spelling(word: &str, n: u64) -> bool
    ensures { IsTrue result ↔ (word.now ≡ decimal n) }
{
    word == Buffer::new().format(n)
}

/// The number from `least` to `most` that a word spells.
pub fn number_within(word: &str, least: u64, most: u64) -> Option<u64>
    ensures { FindsNumber least most word.now result }
{
    let n = parse_number(word)?;
    if n < least || most < n {
        return None;
    }
    if is_spelling(word, n) { Some(n) } else { None }
}
