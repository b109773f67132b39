//! Integers in a cell file.
ghost use Rattle.std.specs.Prelude.{◌≡◌, true, neg_ℤ, pos};
ghost use Rattle.std.specs.List.{list_all};
ghost use Rattle.mls_library.specs.CellFiles as spec;
ghost use Rattle.mls_library.specs.Inner.{at_distance, distance_of};
ghost use Rattle.mls_text.specs.Digits.{is_digit};

use crate::CellFaultKind;
use mls_text::{is_number, value_at_most};

/// How far from 0 the world's lines reach.
const REACH: u64 = 1_048_576;

/// Returns whether the word is an optional `-` and one or more digits.
pub(crate) fn is_integer(word: &[u8]) -> bool
    ensures { result ≡ spec.is_integer word.now }
{
    is_number(word.strip_prefix(b"-").unwrap_or(word))
}

/// Returns the integer that the word spells, if the world has a line there. It may have any number of digits.
#[tactic(auto, using(crate::proofs::WorldLines::lines))]
pub(crate) fn world_line(word: &[u8]) -> Result<i32, CellFaultKind>
    requires { spec.is_integer word.now ≡ true }
    ensures { result ≡ spec.world_line word.now }
{
    match word {
        [b'-', digits @ ..] => line_before_zero(digits),
        _ => line_after_zero(word),
    }
}

/// Returns the line so far to the left of 0 or below it, if the world has it.
fn line_before_zero(digits: &[u8]) -> Result<i32, CellFaultKind>
    requires { list_all is_digit digits.now ≡ true }
    ensures { result ≡ at_distance (λ n. neg_ℤ (pos n)) (distance_of digits.now) }
{
    match value_at_most(digits, REACH) {
        Some(distance) => Ok(-(distance as i64) as i32),
        None => Err(CellFaultKind::OutsideWorld),
    }
}

/// Returns the line so far to the right of 0 or above it, if the world has it.
fn line_after_zero(digits: &[u8]) -> Result<i32, CellFaultKind>
    requires { list_all is_digit digits.now ≡ true }
    ensures { result ≡ at_distance pos (distance_of digits.now) }
{
    match value_at_most(digits, REACH) {
        Some(distance) => Ok(distance as i32),
        None => Err(CellFaultKind::OutsideWorld),
    }
}
