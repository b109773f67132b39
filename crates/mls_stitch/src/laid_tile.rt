//! Tiles with their rectangles.
ghost use Rattle.std.specs.Prelude.{◌≡◌};
ghost use Rattle.mls_geom.specs.Rects.{IsRectangleIn};
ghost use Rattle.mls_geom.specs.World.{world};
ghost use Rattle.mls_tilepool.specs.Pools.{tiles_of};
ghost use Rattle.mls_stitch.specs.Tilings.{HasPlane, bottom_beyond, left_beyond};
ghost use Rattle.mls_stitch.specs.Walks.{laid_at};

use mls_geom::{Area, Piece, Point, Rect};
use mls_tilepool::{Owner, Pool, Tile, TileId};

/// The name of a tile, with its rectangle and its kind.
#[derive(Clone, Copy, Debug, PartialEq, Eq)]
pub struct LaidTile {
    pub id: TileId,
    pub piece: Piece,
}

impl LaidTile {
    ghost use Rattle.mls_geom.specs.Rects.{IsRectangleIn, holds, meets};
    ghost use Rattle.mls_geom.specs.World.{world};

    /// Returns whether the square lies in the tile.
    pub(crate) fn holds(&self, at: Point) -> bool
        ensures { result ≡ holds self.now.piece.rect at.x at.y }
    {
        self.piece.rect.holds(at)
    }

    /// Returns whether the tile has a square of the area.
    pub(crate) fn meets(&self, area: Rect) -> bool
        ensures { result ≡ meets self.now.piece.rect area }
    {
        self.piece.rect.meets(area)
    }

    /// Returns the four sides of the tile.
    pub(crate) fn sides(&self) -> Area
        ensures value { result ≡ self.now.piece.rect }
        ensures legal { IsRectangleIn world self.now.piece.rect }
    {
        self.piece.rect.area()
    }
}

/// Returns the left side of the tile that the stitch names, and the world's right side where it names none.
pub(crate) fn left_beyond(pool: &Pool, owner: &Owner, stitch: Option<TileId>) -> u32
    ensures { result ≡ left_beyond (tiles_of pool.now owner.now) stitch }
{
    match stitch.and_then(|id| pool.get(owner, id)) {
        Some(tile) => tile.corner.column(),
        None => Rect::world().area().right,
    }
}

/// Returns the bottom of the tile that the stitch names, and the world's top where it names none.
pub(crate) fn bottom_beyond(pool: &Pool, owner: &Owner, stitch: Option<TileId>) -> u32
    ensures { result ≡ bottom_beyond (tiles_of pool.now owner.now) stitch }
{
    match stitch.and_then(|id| pool.get(owner, id)) {
        Some(tile) => tile.corner.row(),
        None => Rect::world().area().top,
    }
}

/// Returns the tile with the rectangle between its corner and this right side and top.
pub(crate) fn laid_to(id: TileId, tile: &Tile, right: u32, top: u32) -> LaidTile
    requires { IsRectangleIn world (record
        { left = tile.now.corner.x; bottom = tile.now.corner.y; right = right; top = top }) }
    ensures { result ≡ record {
      id = id;
      piece = record {
        rect = record { left = tile.now.corner.x; bottom = tile.now.corner.y; right = right; top = top };
        kind = tile.now.kind;
      };
    } }
{
    let rect = Rect::between(tile.corner.column(), tile.corner.row(), right, top);
    LaidTile {
        id,
        piece: Piece {
            rect,
            kind: tile.kind,
        },
    }
}

/// Returns the tile under the name with its rectangle, whose right side and top its stitches lead to, if the owner
/// has it.
pub(crate) fn laid(pool: &Pool, owner: &Owner, id: TileId) -> Option<LaidTile>
    requires { HasPlane pool.now owner.now }
    ensures { result ≡ laid_at (tiles_of pool.now owner.now) id }
{
    let tile = pool.get(owner, id)?;
    let right = left_beyond(pool, owner, tile.tr);
    let top = bottom_beyond(pool, owner, tile.rt);
    Some(laid_to(id, &tile, right, top))
}
