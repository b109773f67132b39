//! Places in a cell file.
use mls_kinds::{Kind, PlaneNumber};

/// Where a line stands in a cell file.
#[derive(Clone, Copy, Debug, PartialEq, Eq)]
pub(crate) enum Place {
    /// Before the first line with words.
    Start,
    /// Before the first section.
    Header,
    /// In a section that is skipped, which may have lines that begin with `use`.
    Skipped { with_uses: bool },
    /// In the section of a type.
    Layer { kind: Kind, plane: PlaneNumber },
}
