//! What a plane shows in a rectangle with the cells that are placed in its layout, as pieces that lie over one another.
ghost use Rattle.std.specs.Prelude.{◌≡◌, ◌≢◌, ◌+◌, ◌<◌, ◌≤◌, ℕ, true, if◌then◌else◌, length, vec_capacity};
ghost use Rattle.std.specs.List.{All};
ghost use Rattle.mls_geom.specs.Locality.{laid, uncovered};
ghost use Rattle.mls_geom.specs.Pictures.{Picture};
ghost use Rattle.mls_geom.specs.Rects.{IsRectangleIn, holds};
ghost use Rattle.mls_geom.specs.World.{world};
ghost use Rattle.mls_layout.specs.Inner.{ShowMoved, dumps, later_uses};
ghost use Rattle.mls_layout.specs.Moves.{moved_picture};
ghost use Rattle.mls_layout.specs.Uses.{HasFlatPlane, flat_plane, over};
ghost use Rattle.mls_library.specs.Libraries.{IsHome};

use crate::Workspace;
use crate::moves::moved_part;
use crate::used_tiles::find_use;
use crate::uses::PlaneUses;
use mls_geom::{Piece, Rect};
use mls_kinds::Kind;
use mls_paint::find_meeting;
use mls_stitch::{LaidTile, Plane};

/// Makes the workspace's list of pieces one of at most `most` pieces that lie in a rectangle, and show, laid over one
/// another, what a plane shows there with the uses. Returns whether so few do.
///
/// The first piece is the rectangle's space; those of the uses follow, and then the plane's own, each as it lies in a
/// tile.
pub(crate) fn list_pieces(
    shown: &PlaneUses<'_>,
    plane: &Plane,
    rect: Rect,
    most: usize,
    workspace: &mut Workspace,
) -> bool
    requires legal { IsRectangleIn world rect }
    requires most { most ≤ 32769 }
    requires flat { HasFlatPlane workspace.old.pool plane.now shown.now.uses.library.now }
    ensures laid { result ≡ true → (x y : ℕ) → holds rect x y ≡ true → laid workspace.new.pieces.items x y
        ≡ flat_plane workspace.old.pool shown.now.uses shown.now.number plane.now x y }
    ensures inside { result ≡ true → All (λ piece. IsRectangleIn rect piece.rect) workspace.new.pieces.items }
    ensures covered { result ≡ true → (x y : ℕ) → holds rect x y ≡ true
        → laid workspace.new.pieces.items x y ≢ uncovered }
    ensures few { result ≡ true → length workspace.new.pieces.items ≤ most }
    ensures pool { workspace.new.pool ≡ workspace.old.pool }
{
    if !begin(rect, most, &mut workspace.pieces) {
        return false;
    }
    for index in 0..shown.uses.list.len() {
        if !list_use(shown, index, rect, most, workspace) {
            return false;
        }
    }
    let Workspace { pool, scratch, .. } = workspace;
    find_meeting(pool, plane, rect, scratch);
    let Workspace {
        scratch,
        pieces,
        ..
    } = workspace;
    push_tiles(scratch.tiles(), 0, 0, rect, most, pieces)
}

/// Makes the list one of a rectangle's space alone. Returns whether it may have a piece.
fn begin(rect: Rect, most: usize, pieces: &mut Vec<Piece>) -> bool
    requires room { most ≤ vec_capacity pieces.old }
    ensures laid { result ≡ true → (x y : ℕ) → holds rect x y ≡ true → laid pieces.new.items x y ≡ 0 }
    ensures inside { (extent : Rect) → IsRectangleIn extent rect
        → All (λ piece. IsRectangleIn extent piece.rect) pieces.new.items }
    ensures few { length pieces.new.items ≤ most }
    ensures room { vec_capacity pieces.new ≡ vec_capacity pieces.old }
{
    pieces.clear();
    if most == 0 {
        return false;
    }
    pieces.push_reserved(Piece {
        rect,
        kind: Kind::SPACE,
    });
    true
}

/// Adds the pieces that the use of this index shows in a rectangle on its plane, unless it is seen nowhere in it.
/// Returns whether the list has at most `most` pieces; where it would have more, not all are added.
fn list_use(
    shown: &PlaneUses<'_>,
    index: usize,
    rect: Rect,
    most: usize,
    workspace: &mut Workspace,
) -> bool
    requires index { index < length shown.now.uses.list.now }
    requires legal { IsRectangleIn world rect }
    requires most { most ≤ 32769 }
    requires cells { IsHome workspace.old.pool shown.now.uses.library.now }
    requires few { length workspace.old.pieces.items ≤ most }
    ensures laid { result ≡ true → (x y : ℕ) → holds rect x y ≡ true
        → over (later_uses workspace.old.pool shown.now.uses (index + 1) shown.now.number)
        (laid workspace.new.pieces.items) x y
        ≡ over (later_uses workspace.old.pool shown.now.uses index shown.now.number)
        (laid workspace.old.pieces.items) x y }
    ensures inside { All (λ piece. IsRectangleIn rect piece.rect) workspace.old.pieces.items
        → All (λ piece. IsRectangleIn rect piece.rect) workspace.new.pieces.items }
    ensures covered { (x y : ℕ) → laid workspace.old.pieces.items x y ≢ uncovered
        → laid workspace.new.pieces.items x y ≢ uncovered }
    ensures few { length workspace.new.pieces.items ≤ most }
    ensures pool { workspace.new.pool ≡ workspace.old.pool }
{
    let Some(cell_use) = find_use(shown, index, rect, workspace) else {
        return true;
    };
    let Workspace {
        scratch,
        pieces,
        ..
    } = workspace;
    push_tiles(
        scratch.tiles(),
        cell_use.dx,
        cell_use.dy,
        rect,
        most,
        pieces,
    )
}

/// Adds the parts of the tiles that aren't space and lie in a rectangle, moved to the right by `dx` and up by `dy`.
/// Returns whether the list still has at most `most` pieces; where it would have more, not all are added.
fn push_tiles(
    tiles: &[LaidTile],
    dx: i32,
    dy: i32,
    rect: Rect,
    most: usize,
    pieces: &mut Vec<Piece>,
) -> bool
    requires few { length pieces.old.items ≤ most }
    requires room { most ≤ vec_capacity pieces.old }
    ensures laid { result ≡ true → (picture : Picture) → ShowMoved picture dx dy rect tiles.now
        → (x y : ℕ) → holds rect x y ≡ true
        → laid pieces.new.items x y ≡ over (moved_picture picture dx dy) (laid pieces.old.items) x y }
    ensures inside { All (λ piece. IsRectangleIn rect piece.rect) pieces.old.items
        → All (λ piece. IsRectangleIn rect piece.rect) pieces.new.items }
    ensures covered { (x y : ℕ) → laid pieces.old.items x y ≢ uncovered → laid pieces.new.items x y ≢ uncovered }
    ensures few { length pieces.new.items ≤ most }
    ensures room { vec_capacity pieces.new ≡ vec_capacity pieces.old }
{
    for tile in tiles {
        if !push_piece(&tile.piece, dx, dy, rect, most, pieces) {
            return false;
        }
    }
    true
}

/// Adds the part of a piece that isn't space and lies in a rectangle, moved to the right by `dx` and up by `dy`, if
/// there is one. Returns whether the list still has at most `most` pieces; where it would have more, none is added.
fn push_piece(
    piece: &Piece,
    dx: i32,
    dy: i32,
    rect: Rect,
    most: usize,
    pieces: &mut Vec<Piece>,
) -> bool
    requires few { length pieces.old.items ≤ most }
    requires room { most ≤ vec_capacity pieces.old }
    ensures laid { result ≡ true → (x y : ℕ) → holds rect x y ≡ true → laid pieces.new.items x y
        ≡ (if dumps piece.now dx dy x y then piece.now.kind else laid pieces.old.items x y) }
    ensures inside { All (λ piece. IsRectangleIn rect piece.rect) pieces.old.items
        → All (λ piece. IsRectangleIn rect piece.rect) pieces.new.items }
    ensures covered { (x y : ℕ) → laid pieces.old.items x y ≢ uncovered → laid pieces.new.items x y ≢ uncovered }
    ensures few { length pieces.new.items ≤ most }
    ensures room { vec_capacity pieces.new ≡ vec_capacity pieces.old }
{
    if piece.kind.number() == 0 {
        return true;
    }
    let Some(part) = moved_part(piece.rect, dx, dy, rect) else {
        return true;
    };
    if pieces.len() >= most {
        return false;
    }
    pieces.push_reserved(Piece {
        rect: part,
        kind: piece.kind,
    });
    true
}
