//! Tiles.
use mls_geom::Point;
use mls_kinds::Kind;
use std::marker::Model;

/// The name of a tile in its pool, as long as the tile lies there.
#[derive(Clone, Copy, Debug, PartialEq, Eq)]
pub struct TileId(pub(crate) u32);

impl Model for TileId {
    ghost use Rattle.std.specs.Prelude.{ℕ};

    ghost Value = { ℕ };

    ghost view = { λ id. id.0 };

    ghost inverse = { λ key. record { 0 = key } };
}

impl TileId {
    ghost use Rattle.std.specs.Prelude.{◌≡◌};

    /// Returns the name as a number, by which names can be sorted.
    pub fn key(self) -> usize
        ensures { result ≡ self }
    {
        self.0 as usize
    }
}

/// A tile of a plane, by its lower-left square, its kind and its four stitches (Ousterhout 1984).
///
/// A tile has no right side and no top of its own: its stitches lead to them.
#[derive(Clone, Copy, Debug, PartialEq, Eq)]
pub struct Tile {
    /// The lower-left square of the tile.
    pub corner: Point,
    /// What the squares of the tile are of.
    pub kind: Kind,
    /// The tile below the lower-left square.
    pub lb: Option<TileId>,
    /// The tile to the left of the lower-left square.
    pub bl: Option<TileId>,
    /// The tile to the right of the upper-right square.
    pub tr: Option<TileId>,
    /// The tile above the upper-right square.
    pub rt: Option<TileId>,
}
