//! Owners of tiles.
use std::marker::Model;

/// The right to a number of tiles of a pool, given by [`Pool::reserve`](crate::Pool::reserve). One owner holds the
/// tiles of one plane.
#[derive(Drop)]
pub struct Owner(pub(crate) u32);

impl Model for Owner {
    ghost use Rattle.std.specs.Prelude.{ℕ};

    ghost Value = { ℕ };

    ghost view = { λ o. o.0 };
}

impl Owner {
    ghost use Rattle.std.specs.Prelude.{◌≡◌};

    /// Returns the number of the owner in its pool, which no other one has at the same time.
    pub fn number(&self) -> u32
        ensures { result ≡ self.now }
    {
        self.0
    }
}
