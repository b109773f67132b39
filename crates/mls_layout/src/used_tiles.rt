//! The tiles of the cells that are placed in a layout, where they lie in a rectangle.
ghost use Rattle.std.specs.Prelude.{◌≡◌, ◌+◌, ◌<◌, ℕ, false, true, length, IfSome, IsNone};
ghost use Rattle.std.specs.List.{Contains};
ghost use Rattle.mls_geom.specs.Pictures.{Picture};
ghost use Rattle.mls_geom.specs.Rects.{IsRectangleIn, holds};
ghost use Rattle.mls_geom.specs.World.{world};
ghost use Rattle.mls_layout.specs.Inner.{FindsUse, ShowMoved, later_uses};
ghost use Rattle.mls_layout.specs.Moves.{IsPartOf, moved_picture, moves_into};
ghost use Rattle.mls_layout.specs.Uses.{over};
ghost use Rattle.mls_library.specs.Libraries.{IsFrozen, IsHome};
ghost use Rattle.mls_paint.specs.Planes.{picture_in};

use crate::moves::part_moved_into;
use crate::uses::{PlaneUses, reaches};
use crate::{CellUse, Workspace};
use mls_geom::Rect;
use mls_paint::find_meeting;
use mls_stitch::Plane;

/// Finds the tiles that the use of this index shows in a rectangle on its plane, and leaves them in the scratch, where
/// they lie in its cell. Returns the use, unless it is seen nowhere in the rectangle.
pub(crate) fn find_use(
    shown: &PlaneUses<'_>,
    index: usize,
    rect: Rect,
    workspace: &mut Workspace,
) -> Option<CellUse>
    requires index { index < length shown.now.uses.list.now }
    requires legal { IsRectangleIn world rect }
    requires cells { IsHome workspace.old.pool shown.now.uses.library.now }
    ensures found { IfSome result (λ cell_use. FindsUse workspace.old.pool shown.now.uses index shown.now.number rect
        cell_use.dx cell_use.dy workspace.new.scratch.tiles) }
    ensures hidden { IsNone result → (below : Picture) (x y : ℕ) → holds rect x y ≡ true
        → over (later_uses workspace.old.pool shown.now.uses (index + 1) shown.now.number) below x y
        ≡ over (later_uses workspace.old.pool shown.now.uses index shown.now.number) below x y }
    ensures pool { workspace.new.pool ≡ workspace.old.pool }
    ensures pieces { workspace.new.pieces ≡ workspace.old.pieces }
    ensures grid { workspace.new.grid ≡ workspace.old.grid }
{
    let list = shown.uses.list;
    let cell_use = list[index];
    let cell = shown.uses.library.get(cell_use.cell)?;
    if !reaches(cell, &cell_use, rect) || is_among(&cell_use, &list[index + 1..]) {
        return None;
    }
    let plane = cell.planes().get(shown.number)?;
    if find_moved(plane, &cell_use, rect, workspace) {
        Some(cell_use)
    } else {
        None
    }
}

/// Returns whether one of the uses is the same: the same cell at the same place.
fn is_among(cell_use: &CellUse, list: &[CellUse]) -> bool
    ensures { result ≡ true → Contains list.now cell_use.now }
{
    list.contains(cell_use)
}

/// Finds the tiles that a cell's plane shows in a rectangle, moved as in the use, and leaves them in the scratch.
/// Returns whether any of its squares come to lie there.
fn find_moved(plane: &Plane, cell_use: &CellUse, rect: Rect, workspace: &mut Workspace) -> bool
    requires frozen { IsFrozen workspace.old.pool plane.now }
    ensures found { result ≡ true → ShowMoved (picture_in workspace.old.pool plane.now)
        cell_use.now.dx cell_use.now.dy rect workspace.new.scratch.tiles }
    ensures nowhere { result ≡ false → (x y : ℕ) → holds rect x y ≡ true
        → moved_picture (picture_in workspace.old.pool plane.now) cell_use.now.dx cell_use.now.dy x y ≡ 0 }
    ensures pool { workspace.new.pool ≡ workspace.old.pool }
    ensures pieces { workspace.new.pieces ≡ workspace.old.pieces }
    ensures grid { workspace.new.grid ≡ workspace.old.grid }
{
    let Some(area) = part_in(cell_use, rect) else {
        return false;
    };
    let Workspace { pool, scratch, .. } = workspace;
    find_meeting(pool, plane, area, scratch);
    true
}

/// Returns the squares of a cell that lie in a rectangle once they are moved as in the use, if there are any.
pub(crate) fn part_in(cell_use: &CellUse, rect: Rect) -> Option<Rect>
    ensures { IsPartOf world (moves_into rect cell_use.now.dx cell_use.now.dy) result }
{
    part_moved_into(rect, cell_use.dx, cell_use.dy, Rect::world())
}
