//! Pieces of a plane's own paint.
ghost use Rattle.std.specs.Prelude.{◌≡◌, OnOk};
ghost use Rattle.mls_layout.specs.Grids.{AppendsCover};
ghost use Rattle.mls_paint.specs.Planes.{picture_in};
ghost use Rattle.mls_paint.specs.Scratches.{HasRoomFor, KeepsRoom};
ghost use Rattle.mls_stitch.specs.Tilings.{HasPlane};

use mls_geom::{Piece, Rect};
use mls_paint::{Scratch, find_meeting};
use mls_stitch::Plane;
use mls_tilepool::Pool;
use std::alloc::AllocError;

/// Appends pieces of a plane's own paint in a rectangle: the parts of the plane's tiles that lie in it.
pub(crate) fn push_own(
    pool: &Pool,
    plane: &Plane,
    rect: Rect,
    scratch: &mut Scratch,
    out: &mut Vec<Piece>,
) -> Result<(), AllocError>
    requires plane { HasPlane pool.now plane.now }
    requires room { HasRoomFor pool.now plane.now scratch.old }
    ensures appended { OnOk result (AppendsCover rect (picture_in pool.now plane.now) out.old.items out.new.items) }
    ensures rooms { KeepsRoom scratch.old scratch.new }
{
    find_meeting(pool, plane, rect, scratch);
    for tile in scratch.tiles() {
        let part = tile.piece.rect.clip(rect).unwrap();
        out.push(Piece {
            rect: part,
            kind: tile.piece.kind,
        })?;
    }
    Ok(())
}
