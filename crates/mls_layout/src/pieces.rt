//! Pieces of what a plane shows with the cells that are placed in its layout.
ghost use Rattle.std.specs.Prelude.{◌≡◌, IfOk, OnOk, false, true};
ghost use Rattle.mls_layout.specs.Grids.{AppendsCover, IsBlock};
ghost use Rattle.mls_layout.specs.Uses.{flat_plane};
ghost use Rattle.mls_layout.specs.Workspaces.{FitsWorkspace};
ghost use Rattle.mls_library.specs.Libraries.{IsHome};
ghost use Rattle.mls_stitch.specs.Tilings.{HasPlane};

use crate::cut::cut;
use crate::listing::list_pieces;
use crate::own_pieces::push_own;
use crate::uses::PlaneUses;
use crate::{BLOCK_SIDE, Uses, Workspace, flatten};
use mls_geom::{Piece, Rect};
use mls_paint::push_covered;
use mls_stitch::Plane;
use std::alloc::AllocError;

/// How many pieces are swept at once at most.
const MOST_SWEPT: usize = 8192;

/// How many squares there are to each piece, or more, where a sweep is quicker than a grid.
const SQUARES_FOR_A_PIECE: u64 = 512;

/// Appends pieces in the zone, each of one kind, that leave no square of it out, of what a plane shows with the uses.
/// The plane has this number among those of its layout.
///
/// The zone is cut until each part is one that no use meets, or has few pieces, or is a block. Out of memory, some
/// pieces may have been appended.
pub fn push_flat(
    number: usize,
    plane: &Plane,
    uses: &Uses<'_>,
    zone: Rect,
    workspace: &mut Workspace,
    out: &mut Vec<Piece>,
) -> Result<(), AllocError>
    requires plane { HasPlane workspace.old.pool plane.now }
    requires plane_fits { FitsWorkspace workspace.old.pool plane.now }
    requires cells { IsHome workspace.old.pool uses.now.library.now }
    ensures appended { OnOk result (AppendsCover zone (flat_plane workspace.old.pool uses.now number plane.now)
        out.old.items out.new.items) }
    ensures pool { workspace.new.pool ≡ workspace.old.pool }
{
    if !uses.meet(zone) {
        let Workspace { pool, scratch, .. } = workspace;
        return push_own(pool, plane, zone, scratch, out);
    }
    let lines = zone.area();
    if lines.right - lines.left <= BLOCK_SIDE && lines.top - lines.bottom <= BLOCK_SIDE {
        return push_block(number, plane, uses, zone, workspace, out);
    }
    let met = uses.part_met(zone);
    if met == zone && push_swept(number, plane, uses, zone, workspace, out)? {
        return Ok(());
    }
    let (one, other) = cut(zone, met);
    push_flat(number, plane, uses, one, workspace, out)?;
    push_flat(number, plane, uses, other, workspace, out)
}

/// Appends such pieces of a block.
fn push_block(
    number: usize,
    plane: &Plane,
    uses: &Uses<'_>,
    block: Rect,
    workspace: &mut Workspace,
    out: &mut Vec<Piece>,
) -> Result<(), AllocError>
    requires block { IsBlock block }
    requires plane { HasPlane workspace.old.pool plane.now }
    requires plane_fits { FitsWorkspace workspace.old.pool plane.now }
    requires cells { IsHome workspace.old.pool uses.now.library.now }
    ensures appended { OnOk result (AppendsCover block (flat_plane workspace.old.pool uses.now number plane.now)
        out.old.items out.new.items) }
    ensures pool { workspace.new.pool ≡ workspace.old.pool }
{
    if push_swept(number, plane, uses, block, workspace, out)? {
        return Ok(());
    }
    flatten(number, plane, uses, block, workspace);
    workspace.grid.push_pieces(block, out)
}

/// Appends such pieces of a rectangle, the maximal strips of what is shown in it, where few pieces lie in it. Returns
/// whether it did, and appends none where it didn't.
fn push_swept(
    number: usize,
    plane: &Plane,
    uses: &Uses<'_>,
    rect: Rect,
    workspace: &mut Workspace,
    out: &mut Vec<Piece>,
) -> Result<bool, AllocError>
    requires plane { HasPlane workspace.old.pool plane.now }
    requires plane_fits { FitsWorkspace workspace.old.pool plane.now }
    requires cells { IsHome workspace.old.pool uses.now.library.now }
    ensures appended { IfOk result (λ done. done ≡ true
        → AppendsCover rect (flat_plane workspace.old.pool uses.now number plane.now) out.old.items out.new.items) }
    ensures none { IfOk result (λ done. done ≡ false → out.new.items ≡ out.old.items) }
    ensures pool { workspace.new.pool ≡ workspace.old.pool }
{
    let most = MOST_SWEPT.min((rect.area().size() / SQUARES_FOR_A_PIECE) as usize);
    let shown = PlaneUses {
        uses: *uses,
        number,
    };
    if !list_pieces(&shown, plane, rect, most, workspace) {
        return Ok(false);
    }
    let Workspace {
        scratch,
        pieces,
        ..
    } = workspace;
    push_covered(pieces, scratch, out)
}
