//! The numbers of planes.
ghost use Rattle.std.specs.Prelude.{◌≡◌, ◌<◌};

use std::marker::Model;

/// The number of a plane, from 0 on in the order of the technology.
///
/// Contracts see the number.
#[derive(Clone, Copy, Debug, PartialEq, Eq)]
pub struct PlaneNumber(u8);

impl Model for PlaneNumber {
    ghost use Rattle.std.specs.Prelude.{ℕ, ◌<◌};

    ghost Value = { ℕ };

    ghost view = { λ plane. plane.0 };

    ghost invariant = { λ plane. plane.0 < 256 };

    ghost inverse = { λ number. record { 0 = number } };
}

impl PlaneNumber {
    /// Returns the plane of this number.
    pub const fn new(number: u8) -> Self
        ensures { result ≡ number }
    {
        PlaneNumber(number)
    }

    /// Returns the number, as an index into a list of planes.
    pub const fn index(self) -> usize
        ensures value { result ≡ self }
        ensures fits { self < 256 }
    {
        self.0 as usize
    }
}
