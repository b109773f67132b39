//! Words that are kept.
ghost use Rattle.std.specs.Prelude.{◌≡◌, IfOk};

use std::alloc::{AllocError, Global};
use std::marker::Model;

/// An owned word of a text.
#[derive(Debug, Drop)]
pub struct Word {
    bytes: Vec<u8>,
}

impl Model for Word {
    ghost use Rattle.std.specs.Prelude.{ℕ, List};

    ghost Value = { List ℕ };

    ghost view = { λ word. word.bytes.items };
}

impl Word {
    /// Creates a word of these bytes.
    pub fn new(bytes: Vec<u8>) -> Word
        ensures { result ≡ bytes.items }
    {
        Word { bytes }
    }

    /// Creates a word from a copy of `bytes`.
    pub fn from_slice(alloc: Global, bytes: &[u8]) -> Result<Word, AllocError>
        ensures { IfOk result (λ word. word ≡ bytes.now) }
    {
        Ok(Word::new(Vec::from_slice(alloc, bytes)?))
    }

    /// Returns the word's bytes.
    pub fn as_slice(&self) -> &[u8]
        ensures { result.now ≡ self.now }
    {
        self.bytes.as_slice()
    }
}
