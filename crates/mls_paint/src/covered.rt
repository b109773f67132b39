//! Strips of pieces that are laid on nothing.
ghost use Rattle.std.specs.Prelude.{◌≡◌, ◌≤◌, ◌++◌, List, false, length, true, IfOk};
ghost use Rattle.mls_geom.specs.Locality.{AreCoveredStrips, laid};
ghost use Rattle.mls_geom.specs.World.{world};
ghost use Rattle.mls_geom.specs.declared.piece.Piece.{Piece};
ghost use Rattle.mls_paint.specs.Scratches.{KeepsRoom};

use crate::Scratch;
use mls_geom::{Piece, fresh_strips};
use std::alloc::AllocError;

/// Appends the maximal strips of what pieces show that are laid in turn on nothing, by bottom and then left, and
/// returns whether it did: where the scratch has no room for so many strips, it appends none.
///
/// Fails if memory runs out, and may have appended some of the strips then.
pub fn push_covered(
    pieces: &[Piece],
    scratch: &mut Scratch,
    out: &mut Vec<Piece>,
) -> Result<bool, AllocError>
    requires { length pieces.now ≤ scratch.old.pieces }
    ensures appended { IfOk result (λ done. done ≡ true → (strips : List Piece)
        × (out.new.items ≡ out.old.items ++ strips) × AreCoveredStrips world (laid pieces.now) strips) }
    ensures none { IfOk result (λ done. done ≡ false → out.new.items ≡ out.old.items) }
    ensures tiles { scratch.new.tiles ≡ scratch.old.tiles }
    ensures plans { scratch.new.plans ≡ scratch.old.plans }
    ensures rooms { KeepsRoom scratch.old scratch.new }
{
    let limit = scratch.room.saturating_add(scratch.pieces);
    if fresh_strips(pieces, limit, &mut scratch.sweep).is_err() {
        return Ok(false);
    }
    out.extend_from_slice(scratch.sweep.strips())?;
    Ok(true)
}
