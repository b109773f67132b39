//! The fields of a text between its commas.
ghost use Rattle.std.specs.Prelude.{◌≡◌, ◌==◌, [], ◌∷◌, position};
ghost use Rattle.std.specs.Option.{option_map_or};
ghost use Rattle.std.specs.Iterator.{YieldsFirstBy, item_count};
ghost use Rattle.mls_text.specs.Fields as spec;

use std::marker::Model;

/// An iterator over the fields of a text between its commas.
///
/// There is at least one field, and any field may be empty, as with `split(',')` of a `str`.
#[derive(Drop)]
pub struct Fields<'a> {
    rest: Option<&'a [u8]>,
}

impl<'a> Model for Fields<'a> {
    ghost use Rattle.std.specs.Prelude.{ℕ, List, []};
    ghost use Rattle.std.specs.Option.{option_map_or};
    ghost use Rattle.mls_text.specs.Fields as spec;

    ghost Value = { List (List ℕ) };

    ghost view = { λ fields. option_map_or (λ text. spec.fields_of text.now) fields.rest [] };
}

impl<'a> Fields<'a> {
    /// Returns an iterator over the fields of `text`.
    pub fn new(text: &'a [u8]) -> Fields<'a>
        ensures { result ≡ spec.fields_of text.now }
    {
        Fields { rest: Some(text) }
    }
}

impl<'a> Iterator for Fields<'a> {
    type Item = &'a [u8];

    ghost next_gives = { YieldsFirstBy (λ field. field.now) (λ fields. fields) };

    ghost remaining = { item_count (λ fields. fields) };

    fn next(&mut self) -> Option<&'a [u8]> {
        let (field, rest) = first_field(self.rest?);
        self.rest = rest;
        Some(field)
    }
}

/// Splits a text at its first comma. There is no rest where there is no comma.
#[tactic(auto, using(crate::proofs::FieldLemmas::first))]
fn first_field(text: &[u8]) -> (&[u8], Option<&[u8]>)
    ensures { spec.fields_of text.now ≡ result.0.now ∷ option_map_or (λ rest. spec.fields_of rest.now) result.1 [] }
{
    match comma_at(text) {
        Some(end) => (&text[..end], Some(&text[end + 1..])),
        None => (text, None),
    }
}

/// Returns the index of the first comma.
fn comma_at(text: &[u8]) -> Option<usize>
    ensures { result ≡ position (λ byte. byte == 44) text.now }
{
    text.iter().position(|byte| *byte == b',')
}
