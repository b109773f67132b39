//! The kinds of names that a technology file defines.
ghost use Rattle.std.specs.Prelude.{◌≡◌};
ghost use Rattle.mls_tech.specs.Inner.NameKinds.{spelling_of};

use crate::name::{is_name, is_type_name};

/// What a name is a name of.
#[derive(Clone, Copy)]
pub(crate) enum NameKind {
    PlaneName,
    TypeName,
}

impl NameKind {
    /// Returns whether the word can be a name of this kind.
    pub fn is_spelled(self, word: &[u8]) -> bool
        ensures { result ≡ spelling_of self word.now }
    {
        match self {
            NameKind::PlaneName => is_name(word),
            NameKind::TypeName => is_type_name(word),
        }
    }
}
