//! The words of a line.
ghost use Rattle.std.specs.Prelude.{◌≡◌};
ghost use Rattle.std.specs.List.{position_or_len, prefix_len};
ghost use Rattle.std.specs.Iterator.{YieldsFirstBy, item_count};
ghost use Rattle.mls_text.specs.Words as spec;

use std::marker::Model;

/// An iterator over the words of a line: its longest runs of bytes other than blanks.
///
/// Blanks are spaces and tabs; a carriage return is part of a word.
#[derive(Drop)]
pub struct Words<'a> {
    rest: &'a [u8],
}

impl<'a> Model for Words<'a> {
    ghost use Rattle.std.specs.Prelude.{ℕ, List};
    ghost use Rattle.mls_text.specs.Words as spec;

    ghost Value = { List (List ℕ) };

    ghost view = { λ words. spec.words_of words.rest.now };
}

impl<'a> Words<'a> {
    /// Returns an iterator over the words of `line`.
    pub fn new(line: &'a [u8]) -> Words<'a>
        ensures { result ≡ spec.words_of line.now }
    {
        Words { rest: line }
    }
}

#[tactic(auto, using(crate::proofs::WordLemmas::first))]
impl<'a> Iterator for Words<'a> {
    type Item = &'a [u8];

    ghost next_gives = { YieldsFirstBy (λ word. word.now) (λ words. words) };

    ghost remaining = { item_count (λ words. words) };

    fn next(&mut self) -> Option<&'a [u8]> {
        let begun = &self.rest[blanks_len(self.rest)..];
        if begun.is_empty() {
            return None;
        }
        let (word, rest) = begun.split_at(word_len(begun));
        self.rest = rest;
        Some(word)
    }
}

/// Returns the number of blanks that `bytes` begins with.
pub fn blanks_len(bytes: &[u8]) -> usize
    ensures { result ≡ prefix_len spec.is_blank bytes.now }
{
    bytes.iter().take_while(|byte| is_blank(**byte)).count()
}

/// Returns the number of bytes before the first blank, or the length of `bytes` if there is none.
pub fn word_len(bytes: &[u8]) -> usize
    ensures { result ≡ position_or_len spec.is_blank bytes.now }
{
    bytes.iter().take_while(|byte| !is_blank(**byte)).count()
}

/// Returns whether the byte separates words.
fn is_blank(byte: u8) -> bool
    ensures { result ≡ spec.is_blank byte }
{
    byte == b' ' || byte == b'\t'
}
