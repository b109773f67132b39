//! The four stitches of a tile.
ghost use Rattle.std.specs.Prelude.{◌≡◌};
ghost use Rattle.mls_stitch.specs.Lookups.{back_of};
ghost use Rattle.mls_stitch.specs.Stitches.{stitch_of, with_stitch};

use mls_tilepool::{Tile, TileId};

/// One of the four stitches of a tile (Ousterhout 1984), which begin at its lower-left and its upper-right corner.
#[derive(Clone, Copy, Debug, PartialEq, Eq)]
pub enum Stitch {
    /// From the lower-left corner down.
    Lb,
    /// From the lower-left corner to the left.
    Bl,
    /// From the upper-right corner to the right.
    Tr,
    /// From the upper-right corner up.
    Rt,
}

impl Stitch {
    /// Returns this stitch of the tile.
    pub fn of(self, tile: &Tile) -> Option<TileId>
        ensures { result ≡ stitch_of self tile.now }
    {
        match self {
            Stitch::Lb => tile.lb,
            Stitch::Bl => tile.bl,
            Stitch::Tr => tile.tr,
            Stitch::Rt => tile.rt,
        }
    }

    /// Returns the stitch of the tiles beyond a side that leads back over it, where this one leads over that side.
    pub(crate) fn back(self) -> Stitch
        ensures { result ≡ back_of self }
    {
        match self {
            Stitch::Lb => Stitch::Rt,
            Stitch::Bl => Stitch::Tr,
            Stitch::Tr => Stitch::Bl,
            Stitch::Rt => Stitch::Lb,
        }
    }

    /// Makes this stitch of the tile lead to the tile `to`.
    pub(crate) fn set(self, tile: &mut Tile, to: Option<TileId>)
        ensures { tile.new ≡ with_stitch self to tile.old }
    {
        match self {
            Stitch::Lb => tile.lb = to,
            Stitch::Bl => tile.bl = to,
            Stitch::Tr => tile.tr = to,
            Stitch::Rt => tile.rt = to,
        }
    }
}
