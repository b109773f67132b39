//! How far a layout goes on as it begins. It is a guess where others begin, and nothing is promised of it.
ghost use Rattle.std.specs.Prelude.{◌≡◌};
ghost use Rattle.std.specs.List.{All};
ghost use Rattle.mls_layout.specs.Uses.{HasLayout, HasPlanes};
ghost use Rattle.mls_library.specs.Libraries.{IsFrozen, IsHome};

use crate::used_tiles::part_in;
use crate::uses::reaches;
use crate::{CellUse, Uses, Workspace};
use mls_geom::{Area, Rect};
use mls_library::Cell;
use mls_paint::find_meeting;
use mls_stitch::{LaidTile, Plane};

/// In which direction a layout goes on.
#[derive(Clone, Copy)]
pub enum Onward {
    Right,
    Up,
}

impl Onward {
    /// Returns the line on which an area ends in this direction, and none where it ends with the world.
    fn end(self, area: Area) -> Option<u32> {
        let world = Rect::world().area();
        let (line, rim) = match self {
            Onward::Right => (area.right, world.right),
            Onward::Up => (area.top, world.top),
        };
        (line < rim).then_some(line)
    }

    /// Returns how far a use moves its cell in this direction.
    fn distance(self, cell_use: &CellUse) -> i32 {
        match self {
            Onward::Right => cell_use.dx,
            Onward::Up => cell_use.dy,
        }
    }
}

/// Returns the line up to which all tiles of the planes and of the uses go on that have a square of the rectangle: of a
/// column of squares to the right, of a row up.
pub fn goes_on_to(
    planes: &[Plane],
    uses: &Uses<'_>,
    begin: Rect,
    onward: Onward,
    workspace: &mut Workspace,
) -> u32
    requires { HasLayout workspace.old.pool planes.now uses.now.library.now }
    ensures { workspace.new.pool ≡ workspace.old.pool }
{
    let own = planes_go_on_to(planes, begin, onward, workspace);
    own.min(uses_go_on_to(uses, begin, onward, workspace))
}

/// Returns the line up to which the tiles of planes go on.
fn planes_go_on_to(planes: &[Plane], begin: Rect, onward: Onward, workspace: &mut Workspace) -> u32
    requires { HasPlanes workspace.old.pool planes.now }
    ensures { workspace.new.pool ≡ workspace.old.pool }
{
    let mut end = u32::MAX;
    for plane in planes {
        let Workspace { pool, scratch, .. } = workspace;
        find_meeting(pool, plane, begin, scratch);
        end = end.min(tiles_go_on_to(scratch.tiles(), onward));
    }
    end
}

/// Returns the line up to which the tiles of uses go on.
fn uses_go_on_to(uses: &Uses<'_>, begin: Rect, onward: Onward, workspace: &mut Workspace) -> u32
    requires { IsHome workspace.old.pool uses.now.library.now }
    ensures { workspace.new.pool ≡ workspace.old.pool }
{
    let mut end = u32::MAX;
    for cell_use in uses.list {
        end = end.min(use_goes_on_to(uses, cell_use, begin, onward, workspace));
    }
    end
}

/// Returns the line up to which the tiles of a use go on.
fn use_goes_on_to(
    uses: &Uses<'_>,
    cell_use: &CellUse,
    begin: Rect,
    onward: Onward,
    workspace: &mut Workspace,
) -> u32
    requires { IsHome workspace.old.pool uses.now.library.now }
    ensures { workspace.new.pool ≡ workspace.old.pool }
{
    let Some(cell) = uses.library.get(cell_use.cell) else {
        return u32::MAX;
    };
    if !reaches(cell, cell_use, Rect::world()) {
        return u32::MAX;
    }
    match part_in(cell_use, begin) {
        Some(part) => moved_line(
            cell_goes_on_to(cell, part, onward, workspace),
            onward.distance(cell_use),
        ),
        None => u32::MAX,
    }
}

/// Returns the line up to which the tiles of a cell go on.
fn cell_goes_on_to(cell: &Cell, begin: Rect, onward: Onward, workspace: &mut Workspace) -> u32
    requires { All (IsFrozen workspace.old.pool) cell.now.planes }
    ensures { workspace.new.pool ≡ workspace.old.pool }
{
    let mut end = u32::MAX;
    for plane in cell.planes() {
        let Workspace { pool, scratch, .. } = workspace;
        find_meeting(pool, plane, begin, scratch);
        end = end.min(tiles_go_on_to(scratch.tiles(), onward));
    }
    end
}

/// Returns the line where the first one of the tiles ends.
fn tiles_go_on_to(tiles: &[LaidTile], onward: Onward) -> u32 {
    let ends = tiles
        .iter()
        .filter_map(|tile| onward.end(tile.piece.rect.area()));
    ends.min().unwrap_or(u32::MAX)
}

/// Returns the line moved by this many squares, and the last of all where it is that.
fn moved_line(line: u32, by: i32) -> u32 {
    if line == u32::MAX {
        return line;
    }
    line.saturating_add_signed(by)
}
