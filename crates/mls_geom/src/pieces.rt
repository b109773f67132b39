//! Lists of pieces.
ghost use Rattle.std.specs.List.{All};
ghost use Rattle.mls_geom.specs.Locality.{HaveKinds};
ghost use Rattle.mls_geom.specs.Rects.{IsRectangleIn};
ghost use Rattle.mls_geom.specs.World.{AreLegal};

use crate::{Area, Piece};

/// Returns an area that has the squares of all pieces.
pub(crate) fn bounds(pieces: &[Piece]) -> Area
    ensures within { All (λ piece. IsRectangleIn result piece.rect) pieces.now }
    ensures legal { AreLegal pieces.now }
    ensures kinds { HaveKinds pieces.now }
{
    let mut bounds = Area::nowhere();
    for piece in pieces {
        bounds = bounds.joined(piece.area());
    }
    bounds
}
