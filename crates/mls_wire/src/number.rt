//! Numbers as a script spells them.
ghost use Rattle.std.specs.Prelude.{◌≡◌, ◌≤◌, IfSome};
ghost use Rattle.mls_wire.specs.Numbers as spec;

use mls_text::{is_number, value_at_most};

/// The most digits that a number may have.
const DIGITS_LIMIT: usize = 10;

/// The most digits that a count may have.
const COUNT_DIGITS_LIMIT: usize = 20;

/// Returns the number that a word spells: an optional `-` and one to ten digits, within an `i32`.
#[tactic(auto, unfolding(crate::specs::Numbers::number_of))]
pub fn number_of(word: &[u8]) -> Option<i32>
    ensures { result ≡ spec.number_of word.now }
{
    match word {
        [] => None,
        [b'-', digits @ ..] => magnitude_of(1 << 31, digits).map(|n| -(n as i64) as i32),
        [_, ..] => magnitude_of((1 << 31) - 1, word).map(|n| n as i32),
    }
}

/// Returns the count that a word spells: one to twenty digits, at least 1 and within a `u64`.
#[tactic(auto, unfolding(crate::specs::Numbers::count_written))]
pub fn count_written(word: &[u8]) -> Option<u64>
    ensures { result ≡ spec.count_written word.now }
{
    if word.len() > COUNT_DIGITS_LIMIT || !is_number(word) {
        return None;
    }
    match value_at_most(word, u64::MAX) {
        Some(0) | None => None,
        Some(count) => Some(count),
    }
}

/// Returns the number that one to ten digits spell, or `None` if it is above `limit`.
#[tactic(auto, unfolding(crate::specs::Numbers::magnitude_of))]
fn magnitude_of(limit: u64, word: &[u8]) -> Option<u64>
    ensures value { result ≡ spec.magnitude_of limit word.now }
    ensures bound { IfSome result (λ n. n ≤ limit) }
{
    if word.len() <= DIGITS_LIMIT && is_number(word) {
        value_at_most(word, limit)
    } else {
        None
    }
}
