//! Planes of stitched tiles.
ghost use Rattle.std.specs.Prelude.{◌≡◌};

use mls_tilepool::Owner;
use std::marker::Model;

/// A plane of kinds, covered completely by the stitched tiles of one owner in a pool.
#[derive(Drop)]
pub struct Plane {
    pub(crate) owner: Owner,
}

impl Model for Plane {
    ghost use Rattle.std.specs.Prelude.{ℕ};

    // The owner's number.
    ghost Value = { ℕ };

    ghost view = { λ p. p.owner };
}

impl Plane {
    /// Returns the owner of the plane's tiles.
    pub fn owner(&self) -> &Owner
        ensures { result.now ≡ self.now }
    {
        &self.owner
    }

    /// Gives the owner back, with the tiles of the plane.
    pub fn into_owner(self) -> Owner
        ensures { result ≡ self }
    {
        self.owner
    }
}
