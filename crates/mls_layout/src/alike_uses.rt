//! Whether the cells that are placed in a layout show one kind on each plane round a rectangle, or bars.
ghost use Rattle.std.specs.Prelude.{◌≡◌, ◌≤◌, ℕ, Some, IsTrue};
ghost use Rattle.std.specs.List.{All};
ghost use Rattle.mls_geom.specs.Rects.{Rect, grown};
ghost use Rattle.mls_geom.specs.World.{world};
ghost use Rattle.mls_layout.specs.Inner.{in_world};
ghost use Rattle.mls_layout.specs.Likenesses.{ShowsAlike, Spans};
ghost use Rattle.mls_layout.specs.Moves.{IsPartOf, is_moved, moved_picture};
ghost use Rattle.mls_layout.specs.Uses.{cell_layouts, use_layout, uses_layout};
ghost use Rattle.mls_library.specs.Libraries.{IsFrozen, IsHome};
ghost use Rattle.mls_paint.specs.Planes.{picture_in};
ghost use Rattle.mls_stitch.specs.Areas.{MeetArea};
ghost use Rattle.mls_stitch.specs.Tilings.{block_at};
ghost use Rattle.mls_tilepool.specs.Pools.{tiles_of};

use crate::alike::{AlikeZone, are_alike, begins_alike, first_square, have_kind, lies_in_world};
use crate::moves::moved_part;
use crate::used_tiles::part_in;
use crate::uses::reaches;
use crate::{CellUse, Likeness, Uses, Workspace};
use mls_geom::Rect;
use mls_kinds::Kind;
use mls_library::Cell;
use mls_paint::find_meeting;
use mls_stitch::{LaidTile, Plane};

/// Returns whether what the uses show has the zone's likeness on each plane. Looks first at the use that was the last
/// one without: of twenty cells over one another it is often the same.
pub(crate) fn uses_are_alike(uses: &Uses<'_>, zone: &AlikeZone, workspace: &mut Workspace) -> bool
    requires cells { IsHome workspace.old.pool uses.now.library.now }
    requires near { zone.now.halo ≤ 256 }
    ensures alike { IsTrue result → (plane : ℕ) → ShowsAlike zone.now.likeness zone.now.halo zone.now.rect
        (uses_layout (cell_layouts workspace.old.pool uses.now.library.now) uses.now.list.now plane) }
    ensures pool { workspace.new.pool ≡ workspace.old.pool }
{
    // The first one is looked at first anyway.
    if workspace.doubtful > 0 {
        if let Some(cell_use) = uses.list.get(workspace.doubtful) {
            if !use_is_alike(uses, cell_use, zone, workspace) {
                return false;
            }
        }
    }
    each_is_alike(uses, zone, workspace)
}

/// Returns whether what each use shows has the zone's likeness on each plane, and notes the first one without.
fn each_is_alike(uses: &Uses<'_>, zone: &AlikeZone, workspace: &mut Workspace) -> bool
    requires cells { IsHome workspace.old.pool uses.now.library.now }
    requires near { zone.now.halo ≤ 256 }
    ensures alike { IsTrue result → (plane : ℕ) → ShowsAlike zone.now.likeness zone.now.halo zone.now.rect
        (uses_layout (cell_layouts workspace.old.pool uses.now.library.now) uses.now.list.now plane) }
    ensures pool { workspace.new.pool ≡ workspace.old.pool }
{
    for (index, cell_use) in uses.list.iter().enumerate() {
        if !use_is_alike(uses, cell_use, zone, workspace) {
            workspace.doubtful = index;
            return false;
        }
    }
    true
}

/// Returns whether what a use shows has the zone's likeness on each plane.
fn use_is_alike(
    uses: &Uses<'_>,
    cell_use: &CellUse,
    zone: &AlikeZone,
    workspace: &mut Workspace,
) -> bool
    requires cells { IsHome workspace.old.pool uses.now.library.now }
    requires near { zone.now.halo ≤ 256 }
    ensures alike { IsTrue result → (plane : ℕ) → ShowsAlike zone.now.likeness zone.now.halo zone.now.rect
        (use_layout (cell_layouts workspace.old.pool uses.now.library.now) cell_use.now plane) }
    ensures pool { workspace.new.pool ≡ workspace.old.pool }
{
    lies_in_world(zone.rect);
    let Some(cell) = uses.library.get(cell_use.cell) else {
        return true;
    };
    if !reaches(cell, cell_use, zone.rect.grow(zone.halo)) {
        return true;
    }
    cell_is_alike(cell, cell_use, zone, workspace)
}

/// Returns whether each plane of a cell, moved as in the use, has the zone's likeness.
fn cell_is_alike(
    cell: &Cell,
    cell_use: &CellUse,
    zone: &AlikeZone,
    workspace: &mut Workspace,
) -> bool
    requires frozen { All (IsFrozen workspace.old.pool) cell.now.planes }
    requires near { zone.now.halo ≤ 256 }
    ensures alike { IsTrue result → All (λ owner. ShowsAlike zone.now.likeness zone.now.halo zone.now.rect
        (in_world (moved_picture (picture_in workspace.old.pool owner) cell_use.now.dx cell_use.now.dy)))
        cell.now.planes }
    ensures pool { workspace.new.pool ≡ workspace.old.pool }
{
    for plane in cell.planes() {
        if !plane_is_alike(plane, cell_use, zone, workspace) {
            return false;
        }
    }
    true
}

/// Returns whether a cell's plane, moved as in the use, has the zone's likeness: it shows nothing there, whatever the
/// likeness, or its tiles show the likeness, and nothing is cut off by the world's rim.
fn plane_is_alike(
    plane: &Plane,
    cell_use: &CellUse,
    zone: &AlikeZone,
    workspace: &mut Workspace,
) -> bool
    requires frozen { IsFrozen workspace.old.pool plane.now }
    requires near { zone.now.halo ≤ 256 }
    ensures alike { IsTrue result → ShowsAlike zone.now.likeness zone.now.halo zone.now.rect
        (in_world (moved_picture (picture_in workspace.old.pool plane.now) cell_use.now.dx cell_use.now.dy)) }
    ensures pool { workspace.new.pool ≡ workspace.old.pool }
{
    lies_in_world(zone.rect);
    let Some(part) = part_in(cell_use, zone.rect.grow(zone.halo)) else {
        return true;
    };
    if !find_tiles(plane, zone.likeness, part, workspace) {
        return false;
    }
    let tiles = workspace.scratch.tiles();
    if have_kind(tiles, Kind::SPACE) {
        return true;
    }
    is_amid_worlds(cell_use, zone) && are_alike(tiles, zone.likeness, part)
}

/// Finds the tiles that a cell's plane has in the area, and leaves them in the scratch. Where the tile of the lower
/// left square shows already that the area neither is space nor has the likeness, returns `false`.
fn find_tiles(plane: &Plane, likeness: Likeness, area: Rect, workspace: &mut Workspace) -> bool
    requires frozen { IsFrozen workspace.old.pool plane.now }
    ensures found { IsTrue result
        → MeetArea (block_at (tiles_of workspace.old.pool plane.now)) area workspace.new.scratch.tiles }
    ensures pool { workspace.new.pool ≡ workspace.old.pool }
{
    let Workspace { pool, scratch, .. } = workspace;
    find_meeting(pool, plane, first_square(area), scratch);
    if !may_be_alike(scratch.tiles(), likeness, area) {
        return false;
    }
    find_meeting(pool, plane, area, scratch);
    true
}

/// Returns whether an area that begins with the first of these tiles may be space, or have the likeness.
fn may_be_alike(tiles: &[LaidTile], likeness: Likeness, area: Rect) -> bool {
    begins_alike(tiles, likeness, area)
        || have_kind(tiles, Kind::SPACE) && begins_alike(tiles, Likeness::Rows, area)
}

/// Returns whether the world, and the world moved as in the use, both span the zone.
fn is_amid_worlds(cell_use: &CellUse, zone: &AlikeZone) -> bool
    requires near { zone.now.halo ≤ 256 }
    ensures { IsTrue result → (both : Rect)
        × IsPartOf world (is_moved world cell_use.now.dx cell_use.now.dy) (Some both)
        × Spans zone.now.likeness both (grown zone.now.halo zone.now.rect) }
{
    match moved_part(Rect::world(), cell_use.dx, cell_use.dy, Rect::world()) {
        Some(both) => zone.is_spanned_by(both),
        None => false,
    }
}
