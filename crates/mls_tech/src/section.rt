//! The sections of a technology file.
ghost use Rattle.std.specs.Prelude.{◌≡◌};

/// The kind of a section.
#[derive(Clone, Copy)]
pub(crate) enum Section {
    Tech,
    Planes,
    Types,
    Drc,
    /// Lines that are skipped.
    Other,
}

impl Section {
    ghost use Rattle.mls_tech.specs.Readings.{section_named};

    /// Returns the section with this name.
    pub fn named(word: &[u8]) -> Section
        ensures { result ≡ section_named word.now }
    {
        if word == b"tech".as_slice() {
            Section::Tech
        } else if word == b"planes".as_slice() {
            Section::Planes
        } else if word == b"types".as_slice() {
            Section::Types
        } else if word == b"drc".as_slice() {
            Section::Drc
        } else {
            Section::Other
        }
    }
}
