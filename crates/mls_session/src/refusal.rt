//! Why a command is refused.
ghost use Rattle.std.specs.Prelude.{◌≡◌};

use std::fmt;
use thiserror::Error;

/// Why a command is refused.
#[derive(Clone, Copy, Debug, PartialEq, Eq, Error)]
pub enum Refusal {
    /// The box would have no square.
    EmptyBox,
    /// The box would have squares outside the world.
    OutsideWorld,
    /// No box is set.
    NoBox,
    /// There is no type of the name or number, or it is space, which can't be painted.
    UnknownType,
    /// A plane would have more tiles than the quota.
    Quota,
    /// The journal is full.
    JournalFull,
    /// No cell has the name.
    UnknownCell,
    /// A square of the cell that isn't space would lie outside the world.
    CellOutside,
    /// Memory ran out.
    Memory,
    /// As many cells are placed as there may be.
    TooManyUses,
}

impl Refusal {
    ghost use Rattle.mls_session.specs.Refusals as spec;

    /// Returns the refusal's number, from 1 to 10.
    pub fn number(self) -> u8
        ensures { result ≡ spec.refusal_number self }
    {
        self.wording().0
    }

    /// Returns the refusal's text.
    pub fn text(self) -> &'static str
        ensures { result.now ≡ spec.refusal_text self }
    {
        self.wording().1
    }

    /// Returns the refusal's number and its text.
    fn wording(self) -> (u8, &'static str)
        ensures number { result.0 ≡ spec.refusal_number self }
        ensures text { result.1.now ≡ spec.refusal_text self }
    {
        match self {
            Refusal::EmptyBox => (1, "empty box"),
            Refusal::OutsideWorld => (2, "outside the world"),
            Refusal::NoBox => (3, "no box"),
            Refusal::UnknownType => (4, "unknown type"),
            Refusal::Quota => (5, "quota"),
            Refusal::JournalFull => (6, "journal full"),
            Refusal::UnknownCell => (7, "unknown cell"),
            Refusal::CellOutside => (8, "cell outside the world"),
            Refusal::Memory => (9, "memory"),
            Refusal::TooManyUses => (10, "too many uses"),
        }
    }
}

impl fmt::Display for Refusal {
    fn fmt<W: fmt::Write>(&self, f: &mut fmt::Formatter<W>) -> fmt::Result {
        f.write_str(self.text())
    }
}
