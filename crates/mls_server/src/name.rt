//! Names of sessions.
ghost use Rattle.std.specs.Prelude.{◌≡◌, IsTrue, None, Some, if◌then◌else◌};
ghost use Rattle.std.specs.Cmp.{partial_equiv_from_equiv};
ghost use Rattle.std.specs.Cmp.Lexicographic.{nat_list_eq_equiv};
ghost use Rattle.std.specs.Hash as fed;
ghost use Rattle.std.specs.List.{list_all};
ghost use Rattle.std.proofs.Common.{ap};
ghost use Rattle.std.proofs.lemmas.Slice.Eq.{bytes_eq-Decides};
ghost use Rattle.mls_text.specs.Words.{same_word};
ghost use Rattle.mls_server.specs.SessionNames as spec;

use std::hash::{Hash, Hasher};
use std::marker::Model;

/// The most bytes that a session's name may have.
const NAME_LIMIT: usize = 32;

/// A session's name: 1 to 32 letters, digits and `_` of ASCII.
#[derive(Clone, Copy, Debug)]
pub struct Name {
    bytes: [u8; NAME_LIMIT],
    len: usize,
}

impl Model for Name {
    ghost use Rattle.std.specs.Prelude.{ℕ, List, length, take};

    ghost Value = { List ℕ };

    ghost use Rattle.mls_server.specs.NameBytes.{padded_name, HoldsName};

    ghost view = { λ name. take name.len name.bytes };

    ghost invariant = { λ name. HoldsName name.bytes name.len };

    ghost inverse = { λ word. record { bytes = padded_name word; len = length word } };

    ghost inverse_ok = { λ name kept i. record { bytes = kept.zeros i; len = kept.taken i } };
}

impl Name {
    /// Returns the name that a word spells.
    #[tactic(auto, using(crate::proofs::NameLemmas::kept))]
    pub fn new(word: &[u8]) -> Option<Name>
        ensures { result ≡ (if spec.is_session_name word.now then Some word.now else None) }
    {
        if !is_name(word) {
            return None;
        }
        let mut bytes = [0; NAME_LIMIT];
        bytes[..word.len()].copy_from_slice(word);
        Some(Name {
            bytes,
            len: word.len(),
        })
    }

    /// Returns the name's bytes.
    pub fn as_bytes(&self) -> &[u8]
        ensures value { result.now ≡ self.now }
        ensures name { IsTrue (spec.is_session_name self.now) }
    {
        &self.bytes[..self.len]
    }
}

impl PartialEq for Name {
    ghost eq = { same_word };

    ghost laws = { partial_equiv_from_equiv nat_list_eq_equiv };

    fn eq(&self, other: &Self) -> bool {
        self.as_bytes() == other.as_bytes()
    }
}

impl Eq for Name {
    ghost laws = { nat_list_eq_equiv };
}

impl Hash for Name {
    ghost hash_input = { fed.slice fed.u8 };

    ghost respects_eq = { λ x y same. ap (fed.slice fed.u8) ((bytes_eq-Decides x y).0 same) };

    fn hash<H: Hasher>(&self, state: &mut H) {
        self.as_bytes().hash(state);
    }
}

/// Returns whether the word is a session's name.
fn is_name(word: &[u8]) -> bool
    ensures { result ≡ spec.is_session_name word.now }
{
    (1..=NAME_LIMIT).contains(&word.len()) && has_name_bytes(word)
}

/// Returns whether each byte of the word may be in a name.
fn has_name_bytes(word: &[u8]) -> bool
    ensures { result ≡ list_all spec.is_name_byte word.now }
{
    word.iter().all(|b| b.is_ascii_alphanumeric() || *b == b'_')
}
