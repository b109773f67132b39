//! Numbers in a technology file.
ghost use Rattle.std.specs.Prelude.{◌≡◌};
ghost use Rattle.mls_tech.specs.FileNumbers as spec;

use crate::TechFaultKind;
use mls_text::{is_number, value_at_most};

/// Returns the number that the word spells, if it lies between two limits. It may have any number
/// of digits.
#[tactic(auto, unfolding(crate::specs::FileNumbers::number_in))]
pub(crate) fn number_in(least: u8, most: u8, word: &[u8]) -> Result<u8, TechFaultKind>
    ensures { result ≡ spec.number_in least most word.now }
{
    if !is_number(word) {
        return Err(TechFaultKind::BadNumber);
    }
    match value_at_most(word, u64::from(most)) {
        Some(value) if value >= u64::from(least) => Ok(value as u8),
        _ => Err(TechFaultKind::Limit),
    }
}
