//! The tokens of a type list.
ghost use Rattle.std.specs.Prelude.{◌≡◌, false, [], ◌∷◌, IsTrue, MatchOption, slice_index, length, ◌<◌};
ghost use Rattle.std.specs.List.{position_or_len};
ghost use Rattle.std.specs.Iterator.{YieldsFirstBy, item_count};
ghost use Rattle.mls_tech.specs.TypeLists.{tokens_of, Word};
ghost use Rattle.mls_tech.specs.Inner.Tokens as spec;

use std::marker::Model;

/// A token of a type list.
#[derive(Clone, Copy)]
pub(crate) enum Token<'a> {
    Comma,
    Slash,
    Tilde,
    Opening,
    Closing,
    Word(&'a [u8]),
}

/// The tokens of a type list that are left, in order.
#[derive(Drop)]
pub(crate) struct Tokens<'a> {
    rest: &'a [u8],
}

impl<'a> Model for Tokens<'a> {
    ghost use Rattle.std.specs.Prelude.{List};
    ghost use Rattle.mls_tech.specs.TypeLists.{Token, tokens_of};

    ghost Value = { List Token };

    ghost view = { λ tokens. tokens_of tokens.rest.now };
}

impl<'a> Tokens<'a> {
    /// Creates the tokens of a word.
    pub fn new(word: &'a [u8]) -> Tokens<'a>
        ensures { result ≡ tokens_of word.now }
    {
        Tokens { rest: word }
    }
}

impl<'a> Iterator for Tokens<'a> {
    type Item = Token<'a>;

    ghost next_gives = { YieldsFirstBy spec.token_of (λ tokens. tokens) };

    ghost remaining = { item_count (λ tokens. tokens) };

    fn next(&mut self) -> Option<Token<'a>> {
        let (token, rest) = first_token(self.rest)?;
        self.rest = rest;
        Some(token)
    }
}

/// Returns the first token and the bytes after it.
#[tactic(auto, unfolding(crate::specs::Inner::Tokens::is_mark))]
fn first_token(bytes: &[u8]) -> Option<(Token<'_>, &[u8])>
    ensures { MatchOption result (tokens_of bytes.now ≡ [])
        (λ next. tokens_of bytes.now ≡ spec.token_of next.0 ∷ tokens_of next.1.now) }
{
    let token = match *bytes.first()? {
        b',' => Token::Comma,
        b'/' => Token::Slash,
        b'~' => Token::Tilde,
        b'(' => Token::Opening,
        b')' => Token::Closing,
        _ => return Some(first_word(bytes)),
    };
    Some((token, &bytes[1..]))
}

/// Returns the word that the bytes begin with, and the bytes after it.
#[tactic(auto, using(crate::proofs::TokenLemmas::first))]
fn first_word(bytes: &[u8]) -> (Token<'_>, &[u8])
    requires begun { 0 < length bytes.now }
    requires unmarked { spec.is_mark (slice_index bytes.now 0) ≡ false }
    ensures { tokens_of bytes.now ≡ spec.token_of result.0 ∷ tokens_of result.1.now }
{
    let (word, rest) = bytes.split_at(word_len(bytes));
    (Token::Word(word), rest)
}

/// Returns the number of bytes before the first mark, or of all if there is none.
fn word_len(bytes: &[u8]) -> usize
    ensures { result ≡ position_or_len spec.is_mark bytes.now }
{
    bytes.iter().take_while(|byte| !is_mark(**byte)).count()
}

/// Returns whether the byte is a token by itself.
#[tactic(auto, unfolding(crate::specs::Inner::Tokens::is_mark))]
fn is_mark(byte: u8) -> bool
    ensures { result ≡ spec.is_mark byte }
{
    matches!(byte, b',' | b'/' | b'~' | b'(' | b')')
}
