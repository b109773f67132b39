//! Whether a layout shows one kind on each plane round a rectangle, or bars.
ghost use Rattle.std.specs.Prelude.{◌≡◌, ◌≤◌, ℕ, IsTrue};
ghost use Rattle.std.specs.List.{All};
ghost use Rattle.mls_geom.specs.Rects.{IsRectangleIn, grown};
ghost use Rattle.mls_geom.specs.World.{world};
ghost use Rattle.mls_layout.specs.Likenesses.{ShowsAlike, Spans};
ghost use Rattle.mls_layout.specs.Uses.{HasLayout, HasPlanes, flat_layout};
ghost use Rattle.mls_paint.specs.Planes.{picture_in};
ghost use Rattle.mls_paint.specs.Scratches.{HasRoomFor, KeepsRoom};
ghost use Rattle.mls_stitch.specs.Areas.{MeetArea};
ghost use Rattle.mls_stitch.specs.Tilings.{HasPlane, block_at};
ghost use Rattle.mls_tilepool.specs.Pools.{Pool, tiles_of};

use crate::alike_uses::uses_are_alike;
use crate::{Likeness, Uses, Workspace};
use mls_geom::{Area, Rect};
use mls_kinds::Kind;
use mls_paint::{Scratch, find_meeting};
use mls_stitch::{LaidTile, Plane};
use mls_tilepool::Pool;

/// A rectangle with the squares that lie at most `halo` squares away from it, and the likeness that may be there.
#[derive(Clone, Copy)]
pub(crate) struct AlikeZone {
    pub likeness: Likeness,
    pub rect: Rect,
    pub halo: u32,
}

impl AlikeZone {
    /// Returns whether the world spans the zone.
    pub fn is_amid_world(&self) -> bool
        requires { self.now.halo ≤ 256 }
        ensures { IsTrue result → Spans self.now.likeness world (grown self.now.halo self.now.rect) }
    {
        self.is_spanned_by(Rect::world())
    }

    /// Returns whether a rectangle spans the zone.
    pub fn is_spanned_by(&self, outer: Rect) -> bool
        requires { self.now.halo ≤ 256 }
        ensures { IsTrue result → Spans self.now.likeness outer (grown self.now.halo self.now.rect) }
    {
        spans(
            outer.area(),
            self.likeness,
            Area::around(self.rect, self.halo),
        )
    }
}

/// Returns whether the tiles of each plane and of each use show the likeness in the rectangle and at most `halo`
/// squares away from it, so that each plane of the layout with the uses has it there. No memory is taken.
pub fn is_alike(
    planes: &[Plane],
    uses: &Uses<'_>,
    likeness: Likeness,
    rect: Rect,
    halo: u32,
    workspace: &mut Workspace,
) -> bool
    requires layout { HasLayout workspace.old.pool planes.now uses.now.library.now }
    requires near { halo ≤ 256 }
    ensures alike { IsTrue result → (plane : ℕ) → ShowsAlike likeness halo rect
        (flat_layout workspace.old.pool uses.now planes.now plane) }
    ensures pool { workspace.new.pool ≡ workspace.old.pool }
{
    let zone = AlikeZone {
        likeness,
        rect,
        halo,
    };
    planes_are_alike(planes, &zone, workspace) && uses_are_alike(uses, &zone, workspace)
}

/// Each rectangle lies in the world. Does nothing: the contract is the law.
pub(crate) fn lies_in_world(rect: Rect)
    ensures { IsRectangleIn world rect }
{
    rect.area();
}

/// Returns whether each plane has the zone's likeness.
fn planes_are_alike(planes: &[Plane], zone: &AlikeZone, workspace: &mut Workspace) -> bool
    requires planes { HasPlanes workspace.old.pool planes.now }
    requires near { zone.now.halo ≤ 256 }
    ensures each { IsTrue result → All (λ owner. ShowsAlike zone.now.likeness zone.now.halo zone.now.rect
        (picture_in workspace.old.pool owner)) planes.now }
    ensures pool { workspace.new.pool ≡ workspace.old.pool }
{
    for plane in planes {
        let Workspace { pool, scratch, .. } = workspace;
        if !shows_alike(pool, plane, zone.likeness, zone.rect, zone.halo, scratch) {
            return false;
        }
    }
    true
}

/// Returns whether the plane has the likeness in the rectangle and at most `halo` squares away from it: it shows
/// nothing there, whatever the likeness, or its tiles show the likeness, and nothing is cut off by the world's rim. The
/// search leaves in the scratch what it finds.
pub fn shows_alike(
    pool: &Pool,
    plane: &Plane,
    likeness: Likeness,
    rect: Rect,
    halo: u32,
    scratch: &mut Scratch,
) -> bool
    requires plane { HasPlane pool.now plane.now }
    requires room { HasRoomFor pool.now plane.now scratch.old }
    requires near { halo ≤ 256 }
    ensures alike { IsTrue result → ShowsAlike likeness halo rect (picture_in pool.now plane.now) }
    ensures rooms { KeepsRoom scratch.old scratch.new }
{
    let zone = AlikeZone {
        likeness,
        rect,
        halo,
    };
    lies_in_world(rect);
    let area = rect.grow(halo);
    find_meeting(pool, plane, first_square(area), scratch);
    if !begins_alike(scratch.tiles(), likeness, area) {
        return false;
    }
    find_meeting(pool, plane, area, scratch);
    let tiles = scratch.tiles();
    if have_kind(tiles, Kind::SPACE) {
        return true;
    }
    zone.is_amid_world() && are_alike(tiles, likeness, area)
}

/// Returns the lower left square of the area.
pub(crate) fn first_square(area: Rect) -> Rect {
    let lines = area.area();
    Rect::between(lines.left, lines.bottom, lines.left + 1, lines.bottom + 1)
}

/// Returns whether there is a tile, and the first one spans the area. Since tiles are maximal strips, the tile of the
/// area's lower left square spans its rows where all squares have one kind, or each row has one, and its columns where
/// each column has one; and where many tiles lie it seldom does.
pub(crate) fn begins_alike(tiles: &[LaidTile], likeness: Likeness, area: Rect) -> bool {
    let lines = match likeness {
        Likeness::Columns => Likeness::Columns,
        Likeness::OneKind | Likeness::Rows => Likeness::Rows,
    };
    match tiles {
        [tile, ..] => spans(tile.piece.rect.area(), lines, area.area()),
        [] => false,
    }
}

/// Returns whether tiles that were found in an area show by themselves that the plane has the likeness there: they have
/// one kind, or each of them spans the area.
pub(crate) fn are_alike(tiles: &[LaidTile], likeness: Likeness, area: Rect) -> bool
    ensures { IsTrue result → (pool : Pool) (owner : ℕ) → HasPlane pool owner
        → MeetArea (block_at (tiles_of pool owner)) area tiles.now
        → ShowsAlike likeness 0 area (picture_in pool owner) }
{
    lies_in_world(area);
    match likeness {
        Likeness::OneKind => match tiles {
            [tile, ..] => have_kind(tiles, tile.piece.kind),
            [] => false,
        },
        Likeness::Columns | Likeness::Rows => all_span(tiles, likeness, area),
    }
}

/// Returns whether all tiles have the kind.
pub(crate) fn have_kind(tiles: &[LaidTile], kind: Kind) -> bool
    ensures { IsTrue result → All (λ tile. tile.piece.kind ≡ kind) tiles.now }
{
    tiles.iter().all(|tile| tile.piece.kind == kind)
}

/// Returns whether each of the tiles spans the area.
fn all_span(tiles: &[LaidTile], likeness: Likeness, area: Rect) -> bool
    ensures { IsTrue result → All (λ tile. Spans likeness tile.piece.rect area) tiles.now }
{
    let lines = area.area();
    tiles
        .iter()
        .all(|tile| spans(tile.piece.rect.area(), likeness, lines))
}

/// Returns whether an area spans another one: for columns from its bottom to its top, for rows from its left to its
/// right, and for one kind both.
fn spans(outer: Area, likeness: Likeness, area: Area) -> bool
    ensures { IsTrue result → Spans likeness outer area }
{
    match likeness {
        Likeness::OneKind => outer.encloses(area),
        Likeness::Columns => outer.bottom <= area.bottom && area.top <= outer.top,
        Likeness::Rows => outer.left <= area.left && area.right <= outer.right,
    }
}
