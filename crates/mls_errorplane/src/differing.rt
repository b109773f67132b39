//! Where tiles show other marks than were found.
ghost use Rattle.std.specs.Prelude.{◌≡◌, ℕ, true, All};
ghost use Rattle.mls_errorplane.specs.Common.{IsWithin, holds, marks};
ghost use Rattle.mls_errorplane.specs.PaintedMarks.{ShowsBeside};

use crate::mark_pieces::MARKED;
use mls_checker::Marks;
use mls_geom::{Area, Rect};
use mls_kinds::Kind;
use mls_stitch::LaidTile;

/// Returns the bounds of the squares of the marks' rectangle that [`differing_in`] has of each tile. Where there are
/// none, the bounds have no squares.
pub(crate) fn bounds_of_differing(tiles: &[LaidTile], found: &Marks) -> Area
    ensures within { IsWithin found.now.rect result }
    ensures beside { All (ShowsBeside found.now.rect result (marks found.now)) tiles.now }
{
    let mut bounds = nowhere_in(found.rect());
    for tile in tiles {
        bounds = with_tile(bounds, tile, found);
    }
    bounds
}

/// Returns an area without squares, which joined with an area in the rectangle is that one.
fn nowhere_in(rect: Rect) -> Area
    ensures { IsWithin rect result }
{
    let lines = rect.area();
    Area {
        left: lines.right,
        bottom: lines.top,
        right: lines.left,
        top: lines.bottom,
    }
}

/// Returns the bounds, joined with those of squares in which a tile shows other marks.
fn with_tile(bounds: Area, tile: &LaidTile, found: &Marks) -> Area
    requires within { IsWithin found.now.rect bounds }
    ensures within { IsWithin found.now.rect result }
    ensures wider { (x y : ℕ) → holds bounds x y ≡ true → holds result x y ≡ true }
    ensures beside { ShowsBeside found.now.rect result (marks found.now) tile.now }
{
    let differing = differing_in(tile, found);
    if !differing.has_squares() {
        return bounds;
    }
    bounds.joined(differing)
}

/// Returns the bounds of a tile's squares in the marks' rectangle that have kind 1 and aren't marked, or kind 0 and
/// are. Where the tile has another kind, all its squares in the rectangle count.
pub(crate) fn differing_in(tile: &LaidTile, found: &Marks) -> Area
    ensures inside { (x y : ℕ) → holds result x y ≡ true → holds found.now.rect x y ≡ true }
    ensures beside { ShowsBeside found.now.rect result (marks found.now) tile.now }
{
    let area = tile.piece.rect.area();
    if tile.piece.kind == Kind::SPACE {
        return found.differing(area, false);
    }
    if tile.piece.kind.number() == MARKED {
        return found.differing(area, true);
    }
    area.common(found.rect().area())
}
