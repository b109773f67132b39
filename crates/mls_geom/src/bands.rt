//! The lines between which all rows are alike.
ghost use Rattle.std.specs.Prelude.{◌≡◌, ◌+◌, ◌*◌, ◌≤◌, length, vec_capacity};
ghost use Rattle.mls_geom.specs.Sweep.BandLines.{AreBandLines};
ghost use Rattle.mls_geom.specs.Locality.{HaveKinds};
ghost use Rattle.mls_geom.specs.World.{AreLegal, world};

use crate::Piece;
use crate::lines::sort_dedup;
use crate::world::{HIGH, LOW};

/// Lists the lines at which the world or a piece begins or ends, from the bottom up.
pub(crate) fn list_band_lines(pieces: &[Piece], lines: &mut Vec<u32>)
    requires { 2 * length pieces.now + 2 ≤ vec_capacity lines.old }
    ensures legal { AreLegal pieces.now }
    ensures kinds { HaveKinds pieces.now }
    ensures lines { AreBandLines world pieces.now lines.new.items }
    ensures room { vec_capacity lines.new ≡ vec_capacity lines.old }
{
    lines.clear();
    lines.push_reserved(LOW);
    lines.push_reserved(HIGH);
    for piece in pieces {
        let edges = piece.area();
        // Pieces beside each other have the same lines.
        if !lines.ends_with(&[edges.bottom, edges.top]) {
            lines.push_reserved(edges.bottom);
            lines.push_reserved(edges.top);
        }
    }
    sort_dedup(lines);
}
