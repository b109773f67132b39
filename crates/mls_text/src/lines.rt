//! The lines of a text.
ghost use Rattle.std.specs.Prelude.{◌≡◌, ◌==◌, ◌<◌, [], ◌∷◌, length, position, MatchOption, IfSome};
ghost use Rattle.mls_text.specs.Lines as spec;

/// Splits the bytes of a file after their first line, or returns `None` if they are empty.
///
/// A line ends with a line feed, which is left out together with a carriage return before it, or
/// with the end of the file, where a carriage return is kept.
#[tactic(auto, using(crate::proofs::RawLineLemmas::first))]
pub fn next_line(bytes: &[u8]) -> Option<(&[u8], &[u8])>
    ensures line { MatchOption result (bytes.now ≡ [])
        (λ parts. spec.raw_lines bytes.now ≡ parts.0.now ∷ spec.raw_lines parts.1.now) }
    ensures shorter { IfSome result (λ parts. length parts.1.now < length bytes.now) }
{
    if bytes.is_empty() {
        return None;
    }
    let Some(end) = line_feed_at(bytes) else {
        return Some((bytes, &[]));
    };
    Some((without_return(&bytes[..end]), &bytes[end + 1..]))
}

/// Returns the index of the first line feed.
pub fn line_feed_at(bytes: &[u8]) -> Option<usize>
    ensures { result ≡ position (λ byte. byte == 10) bytes.now }
{
    bytes.iter().position(|byte| *byte == b'\n')
}

/// Returns the line without a carriage return at its end.
#[tactic(auto, using(crate::proofs::LastBytes::returns))]
pub fn without_return(line: &[u8]) -> &[u8]
    ensures { result.now ≡ spec.without_return line.now }
{
    match line {
        [front @ .., b'\r'] => front,
        _ => line,
    }
}
