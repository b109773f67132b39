//! The lines of a file, each that ends with `\` joined with the next.
ghost use Rattle.std.specs.Prelude.{◌≡◌, ◌+◌, ◌^◌, ◌<◌, ◌≤◌, ◌∷◌, ◌++◌, length, if◌then◌else◌, IfOk};
ghost use Rattle.mls_text.specs.Lines.{raw_lines};
ghost use Rattle.mls_tech.specs.FileLines.{NumberedLine, goes_on, joined_from, with_blank};

use mls_text::next_line;
use std::alloc::AllocError;

/// Replaces `line` by the first line of the bytes, joined with those that it goes on in. The first
/// line has the given number. Returns the bytes that follow, and the number of the line there.
#[tactic(auto, using(crate::proofs::JoinedLines::steps))]
pub(crate) fn read_line<'a>(
    line: &mut Vec<u8>,
    bytes: &'a [u8],
    number: usize,
) -> Result<(&'a [u8], usize), AllocError>
    requires some { 0 < length bytes.now }
    requires fits { number + length bytes.now < 2 ^ 64 }
    ensures line { IfOk result (λ after. joined_from number (raw_lines bytes.now)
        ≡ record { line = number; bytes = line.new.items } ∷ joined_from after.1 (raw_lines after.0.now)) }
    ensures shorter { IfOk result (λ after. length after.0.now < length bytes.now) }
    ensures fits { IfOk result (λ after. after.1 + length after.0.now ≤ number + length bytes.now) }
{
    line.clear();
    let mut rest = bytes;
    let mut next = number;
    while let Some((raw, after)) = next_line(rest) {
        rest = after;
        next += 1;
        if !append_line(line, raw)? {
            break;
        }
    }
    Ok((rest, next))
}

/// Appends a line as it stands in the file, with a blank in place of a `\` at its end, and returns
/// whether it had one.
#[tactic(auto, using(crate::proofs::LastBytes::joins))]
fn append_line(line: &mut Vec<u8>, raw: &[u8]) -> Result<bool, AllocError>
    ensures goes_on { IfOk result (λ joins. joins ≡ goes_on raw.now) }
    ensures line { IfOk result (λ joins.
        line.new.items ≡ line.old.items ++ (if joins then with_blank raw.now else raw.now)) }
{
    match raw {
        [front @ .., b'\\'] => {
            line.extend_from_slice(front)?;
            line.push(b' ')?;
            Ok(true)
        }
        _ => {
            line.extend_from_slice(raw)?;
            Ok(false)
        }
    }
}
