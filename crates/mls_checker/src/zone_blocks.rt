//! Whether tiles show what a plane does with uses, block by block.
ghost use Rattle.std.specs.Prelude.{◌≡◌, ◌↔◌, ◌<◌, ◌≤◌, IsTrue};
ghost use Rattle.std.specs.List.{All};
ghost use Rattle.mls_checker.specs.FlatZones.{HasTileIn, SameIn, block_from, lines_after};
ghost use Rattle.mls_checker.specs.Tiles.{AreTiles, outer, tiles_picture};
ghost use Rattle.mls_layout.specs.Grids.{IsBlock, grid_picture};
ghost use Rattle.mls_layout.specs.Uses.{HasFlatPlane, flat_plane};

use crate::plane_tiles::PlaneZone;
use crate::tiles::Tile;
use mls_geom::Rect;
use mls_layout::{BLOCK_SIDE, KindGrid, Uses, Workspace, flatten};
use mls_stitch::Plane;

/// Whether the tiles show in the zone what the plane does with the uses. No memory is taken.
pub(crate) fn show_flat(
    tiles: &[Tile],
    at: PlaneZone,
    plane: &Plane,
    uses: &Uses<'_>,
    workspace: &mut Workspace,
) -> bool
    requires tiles { AreTiles outer (tiles_picture tiles.now) tiles.now }
    requires flat { HasFlatPlane workspace.old.pool plane.now uses.now.library.now }
    ensures same { IsTrue result ↔ SameIn at.zone (tiles_picture tiles.now)
        (flat_plane workspace.old.pool uses.now at.number plane.now) }
    ensures pool { workspace.new.pool ≡ workspace.old.pool }
{
    let lines = at.zone.area();
    let mut left = lines.left;
    let mut bottom = lines.bottom;
    'rows: while bottom < lines.top {
        let block = block_from(at.zone, left, bottom);
        flatten(at.number, plane, uses, block, workspace);
        if !has_tiles(&workspace.grid, block, tiles) {
            return false;
        }
        let next = lines_after(at.zone, block);
        left = next.0;
        bottom = next.1;
    }
    true
}

/// Returns the block that begins at these lines, as far as it lies in the zone.
fn block_from(zone: Rect, left: u32, bottom: u32) -> Rect
    requires column { zone.left ≤ left }
    requires wide { left < zone.right }
    requires row { zone.bottom ≤ bottom }
    requires tall { bottom < zone.top }
    ensures { result ≡ block_from zone left bottom }
{
    let lines = zone.area();
    let right = lines.right.min(left + BLOCK_SIDE);
    let top = lines.top.min(bottom + BLOCK_SIDE);
    Rect::between(left, bottom, right, top)
}

/// Returns the left line and the bottom line of the block after this one, row after row. After the last one the bottom
/// line is the zone's top.
fn lines_after(zone: Rect, block: Rect) -> (u32, u32)
    ensures { result ≡ lines_after zone block }
{
    let lines = zone.area();
    let done = block.area();
    if done.right < lines.right {
        (done.right, done.bottom)
    } else {
        (lines.left, done.top)
    }
}

/// Whether the grid has, in each square of a block, the kinds of the tiles that have it.
fn has_tiles(grid: &KindGrid, block: Rect, tiles: &[Tile]) -> bool
    requires { IsBlock block }
    ensures { IsTrue result ↔ All (HasTileIn block (grid_picture grid.now block)) tiles.now }
{
    for tile in tiles {
        if !has_tile(grid, block, tile) {
            return false;
        }
    }
    true
}

/// Whether the grid has the tile's kind in each of its squares that lie in the block.
fn has_tile(grid: &KindGrid, block: Rect, tile: &Tile) -> bool
    requires { IsBlock block }
    ensures { IsTrue result ↔ HasTileIn block (grid_picture grid.now block) tile.now }
{
    let part = tile.area.common(block.area());
    if !part.has_squares() {
        return true;
    }
    let rect = Rect::between(part.left, part.bottom, part.right, part.top);
    grid.has_kind(block, rect, tile.kind)
}
