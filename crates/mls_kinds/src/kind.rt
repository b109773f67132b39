//! Kinds.
ghost use Rattle.std.specs.Prelude.{◌≡◌, ◌<◌};

use std::marker::Model;

/// What a square of a plane shows: 0 is space, 1 to 63 are types.
///
/// Contracts see the kind's number.
#[derive(Clone, Copy, Debug, PartialEq, Eq)]
pub struct Kind(u8);

impl Model for Kind {
    ghost use Rattle.std.specs.Prelude.{ℕ, ◌<◌};

    ghost Value = { ℕ };

    ghost view = { λ kind. kind.0 };

    ghost invariant = { λ kind. kind.0 < 256 };

    ghost inverse = { λ number. record { 0 = number } };
}

impl Kind {
    /// Space.
    pub const SPACE: Kind = Kind(0);

    /// Returns the kind of this number.
    pub const fn new(number: u8) -> Self
        ensures { result ≡ number }
    {
        Kind(number)
    }

    /// Returns the kind's number.
    pub const fn number(self) -> u8
        ensures value { result ≡ self }
        ensures fits { self < 256 }
    {
        self.0
    }
}
