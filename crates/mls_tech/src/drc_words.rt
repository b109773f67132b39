//! The words of a line of the section `drc`.
ghost use Rattle.std.specs.Prelude.{◌≡◌, ◌≢◌, ◌+◌, ◌≤◌, true, false, [], length, position, IfOk};
ghost use Rattle.std.specs.Option.{option_map};
ghost use Rattle.mls_tech.specs.DrcLines as spec;
ghost use Rattle.mls_tech.specs.DrcLines.{Between, Quoted};
ghost use Rattle.mls_tech.specs.Inner.DrcViews.{Begins, word_bytes};
ghost use Rattle.mls_text.specs.Words.{begins_with, begins_with_word};

use mls_text::{blanks_len, word_len};
use std::alloc::{AllocError, Global};

/// What a quoted word begins and ends with.
const QUOTE: u8 = b'"';

/// The first word of a line.
enum NextWord<'a> {
    /// No word: the line is blank.
    Nothing,
    /// A quote that no second one follows.
    Unclosed,
    /// A word, and the bytes after it.
    Word(&'a [u8], &'a [u8]),
}

/// Returns the words of a line, in order: they are separated by blanks, and one that begins with
/// `"` goes to the next `"`, where it ends. Returns `None` where a second `"` is missing.
#[tactic(auto, unfolding(crate::specs::DrcLines::drc_words))]
pub(crate) fn drc_words(alloc: Global, line: &[u8]) -> Result<Option<Vec<&[u8]>>, AllocError>
    ensures { IfOk result
        (λ found. spec.drc_words line.now ≡ option_map (λ words. word_bytes words.items) found) }
{
    let mut words = Vec::new(alloc);
    let mut rest = line;
    loop {
        match next_word(rest) {
            NextWord::Nothing => return Ok(Some(words)),
            NextWord::Unclosed => return Ok(None),
            NextWord::Word(word, after) => {
                words.push(word)?;
                rest = after;
            }
        }
    }
}

/// Returns the first word of a line.
fn next_word(line: &[u8]) -> NextWord<'_>
    ensures { Begins (length line.now) (spec.words_from Between line.now) result }
{
    match after_blanks(line) {
        [] => NextWord::Nothing,
        [QUOTE, bytes @ ..] => quoted_word(bytes),
        bytes => bare_word(bytes),
    }
}

/// Returns the quoted word that the bytes after its first quote begin with.
#[tactic(auto, using(crate::proofs::DrcWordLemmas::quoted))]
fn quoted_word(bytes: &[u8]) -> NextWord<'_>
    ensures { Begins (length bytes.now + 1) (spec.words_from (Quoted []) bytes.now) result }
{
    match quote_index(bytes) {
        None => NextWord::Unclosed,
        Some(len) => NextWord::Word(&bytes[..len], &bytes[len + 1..]),
    }
}

/// Returns the bare word that the bytes begin with.
#[tactic(auto, using(crate::proofs::DrcWordLemmas::bare))]
fn bare_word(bytes: &[u8]) -> NextWord<'_>
    requires word { begins_with_word bytes.now ≡ true }
    requires bare { begins_with QUOTE bytes.now ≡ false }
    ensures { Begins (length bytes.now) (spec.words_from Between bytes.now) result }
{
    let (word, rest) = bytes.split_at(word_len(bytes));
    NextWord::Word(word, rest)
}

/// Returns the index of the first quote.
fn quote_index(bytes: &[u8]) -> Option<usize>
    ensures { result ≡ position spec.is_quote bytes.now }
{
    bytes.iter().position(|b| *b == QUOTE)
}

/// Returns the line from its first byte on that is no blank.
#[tactic(auto, using(crate::proofs::DrcWordLemmas::blanks))]
fn after_blanks(line: &[u8]) -> &[u8]
    ensures same { spec.words_from Between result.now ≡ spec.words_from Between line.now }
    ensures begins { length result.now ≢ 0 → begins_with_word result.now ≡ true }
    ensures len { length result.now ≤ length line.now }
{
    &line[blanks_len(line)..]
}
