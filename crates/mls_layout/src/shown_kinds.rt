//! The kinds that a plane shows with the cells that are placed in its layout.
ghost use Rattle.std.specs.Prelude.{◌≡◌, ℕ, [], IfOk, IsOk};
ghost use Rattle.mls_geom.specs.Pictures.{Picture, kinds_in};
ghost use Rattle.mls_geom.specs.Rects.{Rect};
ghost use Rattle.mls_layout.specs.Grids.{CoverBlock};
ghost use Rattle.mls_layout.specs.Uses.{HasFlatPlane, flat_plane};

use crate::{Uses, Workspace, push_flat};
use mls_geom::{Piece, Rect};
use mls_kinds::KindSet;
use mls_stitch::Plane;
use std::alloc::{AllocError, Global};

/// Returns the kinds below 64 that the squares of the rectangle have on a plane with the uses. The plane has this
/// number among those of its layout.
///
/// Takes memory only where there is a use, and fails only if it runs out.
pub fn kinds(
    alloc: Global,
    number: usize,
    plane: &Plane,
    uses: &Uses<'_>,
    rect: Rect,
    workspace: &mut Workspace,
) -> Result<KindSet, AllocError>
    requires flat { HasFlatPlane workspace.old.pool plane.now uses.now.library.now }
    ensures kinds { IfOk result (λ found. found
        ≡ kinds_in (flat_plane workspace.old.pool uses.now number plane.now) rect) }
    ensures without_uses { uses.now.list.now ≡ [] → IsOk result }
    ensures pool { workspace.new.pool ≡ workspace.old.pool }
{
    if !uses.meet(rect) {
        let Workspace { pool, scratch, .. } = workspace;
        return Ok(mls_paint::kinds(pool, plane, rect, scratch));
    }
    let mut pieces = Vec::new(alloc);
    push_flat(number, plane, uses, rect, workspace, &mut pieces)?;
    Ok(kinds_of(&pieces))
}

/// Returns the kinds below 64 of the pieces.
fn kinds_of(pieces: &[Piece]) -> KindSet
    ensures { (extent : Rect) (picture : Picture) → CoverBlock extent picture pieces.now
        → result ≡ kinds_in picture extent }
{
    let mut kinds = KindSet::empty();
    for piece in pieces {
        kinds.insert(piece.kind);
    }
    kinds
}
