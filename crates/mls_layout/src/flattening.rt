//! What a plane shows in a block with the cells that are placed in its layout.
ghost use Rattle.std.specs.Prelude.{◌≡◌, ◌+◌, ◌<◌, ℕ, true, if◌then◌else◌, length};
ghost use Rattle.mls_geom.specs.Rects.{holds};
ghost use Rattle.mls_geom.specs.World.{world};
ghost use Rattle.mls_layout.specs.Grids.{IsBlock, grid_picture};
ghost use Rattle.mls_layout.specs.Inner.{later_uses};
ghost use Rattle.mls_layout.specs.Uses.{HasFlatPlane, flat_plane, over};
ghost use Rattle.mls_library.specs.Libraries.{IsHome};

use crate::painting::paint_tiles;
use crate::used_tiles::find_use;
use crate::uses::PlaneUses;
use crate::{Uses, Workspace};
use mls_geom::Rect;
use mls_paint::find_meeting;
use mls_stitch::Plane;

/// Fills the workspace's grid with what a plane shows in a block with the uses. The plane has this number among those
/// of its layout, and its own paint lies over the uses.
pub fn flatten(
    number: usize,
    plane: &Plane,
    uses: &Uses<'_>,
    block: Rect,
    workspace: &mut Workspace,
)
    requires block { IsBlock block }
    requires flat { HasFlatPlane workspace.old.pool plane.now uses.now.library.now }
    ensures shown { grid_picture workspace.new.grid block
        ≡ (λ x y. if holds block x y then flat_plane workspace.old.pool uses.now number plane.now x y else 0) }
    ensures pool { workspace.new.pool ≡ workspace.old.pool }
{
    let shown = PlaneUses {
        uses: *uses,
        number,
    };
    workspace.grid.clear(block);
    for index in 0..uses.list.len() {
        paint_use(&shown, index, block, workspace);
    }
    let Workspace { pool, scratch, .. } = workspace;
    find_meeting(pool, plane, block, scratch);
    let Workspace { scratch, grid, .. } = workspace;
    paint_tiles(scratch.tiles(), 0, 0, block, grid);
}

/// Paints what the use of this index shows on its plane over a block of the workspace's grid, unless it is seen nowhere
/// in the block.
fn paint_use(shown: &PlaneUses<'_>, index: usize, block: Rect, workspace: &mut Workspace)
    requires index { index < length shown.now.uses.list.now }
    requires block { IsBlock block }
    requires cells { IsHome workspace.old.pool shown.now.uses.library.now }
    ensures painted { (x y : ℕ) → holds block x y ≡ true
        → over (later_uses workspace.old.pool shown.now.uses (index + 1) shown.now.number)
        (grid_picture workspace.new.grid block) x y
        ≡ over (later_uses workspace.old.pool shown.now.uses index shown.now.number)
        (grid_picture workspace.old.grid block) x y }
    ensures pool { workspace.new.pool ≡ workspace.old.pool }
{
    if let Some(cell_use) = find_use(shown, index, block, workspace) {
        let Workspace { scratch, grid, .. } = workspace;
        paint_tiles(scratch.tiles(), cell_use.dx, cell_use.dy, block, grid);
    }
}
