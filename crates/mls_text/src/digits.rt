//! Numbers as decimal digits.
ghost use Rattle.std.specs.Prelude.{◌≡◌, IsTrue};
ghost use Rattle.std.specs.List.{list_all};
ghost use Rattle.mls_text.specs.Digits as spec;

/// Returns whether the word is one or more digits.
#[tactic(auto, using(crate::proofs::WordTests::is_empty_by_length))]
pub fn is_number(word: &[u8]) -> bool
    ensures { result ≡ spec.is_number word.now }
{
    !word.is_empty() && are_digits(word)
}

/// Returns whether each byte is a digit.
fn are_digits(bytes: &[u8]) -> bool
    ensures { result ≡ list_all spec.is_digit bytes.now }
{
    bytes.iter().all(|byte| byte.is_ascii_digit())
}

/// Returns the value of `digits`, or `None` if it is above `limit`.
///
/// There may be any number of digits; none have the value 0.
pub fn value_at_most(digits: &[u8], limit: u64) -> Option<u64>
    requires { IsTrue (list_all spec.is_digit digits.now) }
    ensures { result ≡ spec.value_at_most limit digits.now }
{
    let above = u128::from(limit) + 1;
    let mut value = 0;
    for digit in digits {
        value = (10 * value + u128::from(*digit - b'0')).min(above);
    }
    if value < above {
        Some(value as u64)
    } else {
        None
    }
}
