//! Whether an error plane shows the marks of a finding already, and in which part of its rectangle it doesn't.
ghost use Rattle.std.specs.Prelude.{◌≡◌, ◌+◌, ◌≤◌, ℕ, true, IfSome, IsNone, IsTrue, All, Any, sum_by};
ghost use Rattle.mls_errorplane.specs.Common.{IsRectangleIn, holds, marks, size_of, square_count};
ghost use Rattle.mls_errorplane.specs.PaintedMarks.{IsSettled, ShowsBeside, ShowsSet, space_size};

use crate::differing::{bounds_of_differing, differing_in};
use mls_checker::Marks;
use mls_geom::Rect;
use mls_kinds::Kind;
use mls_stitch::LaidTile;

/// Returns a part of the marks' rectangle outside of which tiles that have all its squares have kind 1 in its marked
/// squares, and kind 0 in its others, or `None` where they do so in the whole rectangle.
pub(crate) fn differing_part(tiles: &[LaidTile], found: &Marks) -> Option<Rect>
    requires { (x y : ℕ) → holds found.now.rect x y ≡ true
        → Any (λ tile. IsTrue (holds tile.piece.rect x y)) tiles.now }
    ensures same { IsNone result → All (ShowsSet found.now.rect (marks found.now)) tiles.now }
    ensures inside { IfSome result (λ part. IsRectangleIn found.now.rect part) }
    ensures beside { IfSome result (λ part. All (ShowsBeside found.now.rect part (marks found.now)) tiles.now) }
{
    if show(tiles, found) {
        return None;
    }
    let rect = found.rect();
    let bounds = bounds_of_differing(tiles, found);
    if !bounds.has_squares() {
        return None;
    }
    Some(Rect::between(bounds.left, bounds.bottom, bounds.right, bounds.top))
}

/// Returns whether tiles that have all squares of the marks' rectangle have kind 1 in its marked squares, and kind 0
/// in its others.
///
/// This looks at the squares of tiles that aren't space alone: the squares of space are counted, and the marks. It may
/// return `false` where some tiles share a square.
fn show(tiles: &[LaidTile], found: &Marks) -> bool
    requires { (x y : ℕ) → holds found.now.rect x y ≡ true
        → Any (λ tile. IsTrue (holds tile.piece.rect x y)) tiles.now }
    ensures { IsTrue result → All (ShowsSet found.now.rect (marks found.now)) tiles.now }
{
    if !are_settled(tiles, found) {
        return false;
    }
    have_room(tiles, found)
}

/// Returns whether each tile is space, or has kind 1 in its marked squares of the rectangle, and kind 0 in its others.
fn are_settled(tiles: &[LaidTile], found: &Marks) -> bool
    ensures { IsTrue result → All (IsSettled found.now.rect (marks found.now)) tiles.now }
{
    for tile in tiles {
        if !is_settled(tile, found) {
            return false;
        }
    }
    true
}

/// Returns whether the tile is space, or has kind 1 in its marked squares of the rectangle, and kind 0 in its others.
fn is_settled(tile: &LaidTile, found: &Marks) -> bool
    ensures { IsTrue result → IsSettled found.now.rect (marks found.now) tile.now }
{
    if tile.piece.kind == Kind::SPACE {
        return true;
    }
    !differing_in(tile, found).has_squares()
}

/// Returns whether the marks and the space among the tiles have together no more squares of the rectangle than it
/// has, each square of space counted as often as it lies in a tile.
fn have_room(tiles: &[LaidTile], found: &Marks) -> bool
    ensures { IsTrue result → sum_by (space_size found.now.rect) tiles.now
        + square_count found.now.rect (marks found.now) ≤ size_of found.now.rect }
{
    match without_space(tiles, found.rect()) {
        Some(rest) => found.count() <= rest,
        None => false,
    }
}

/// Returns how many squares the rectangle has beside the space among the tiles, unless that has more.
fn without_space(tiles: &[LaidTile], rect: Rect) -> Option<u64>
    ensures { IfSome result (λ rest. rest + sum_by (space_size rect) tiles.now ≡ size_of rect) }
{
    let mut rest = rect.area().size();
    for tile in tiles {
        rest = rest.checked_sub(space_size(tile, rect))?;
    }
    Some(rest)
}

/// Returns how many squares of the rectangle the tile has, if it is space.
pub(crate) fn space_size(tile: &LaidTile, rect: Rect) -> u64
    ensures { result ≡ space_size rect tile.now }
{
    if tile.piece.kind == Kind::SPACE {
        return tile.piece.rect.area().common(rect.area()).size();
    }
    0
}
