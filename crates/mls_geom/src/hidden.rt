//! Pieces that a later one hides.
ghost use Rattle.std.specs.Prelude.{◌≡◌, ◌≤◌, length, vec_len, vec_capacity};
ghost use Rattle.mls_geom.specs.Locality.{HaveKinds};
ghost use Rattle.mls_geom.specs.Sweep.Hidden.{ShowAlike};
ghost use Rattle.mls_geom.specs.World.{AreLegal};

use crate::{Area, Piece};

/// Lists the pieces, in order, without those that lie inside the greatest of those after them.
pub(crate) fn list_shown(pieces: &[Piece], shown: &mut Vec<Piece>)
    requires { length pieces.now ≤ vec_capacity shown.old }
    ensures alike { ShowAlike shown.new.items pieces.now }
    ensures len { vec_len shown.new ≤ length pieces.now }
    ensures legal { AreLegal pieces.now }
    ensures kinds { HaveKinds pieces.now }
    ensures room { vec_capacity shown.new ≡ vec_capacity shown.old }
{
    shown.clear();
    let mut greatest = Area::nowhere();
    for i in 0..pieces.len() {
        let at = pieces.len() - 1 - i;
        let area = pieces[at].area();
        if !greatest.encloses(area) {
            shown.push_reserved(pieces[at]);
            if greatest.size() < area.size() {
                greatest = area;
            }
        }
    }
    shown.reverse();
}
