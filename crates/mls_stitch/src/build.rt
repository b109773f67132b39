//! Building a plane.
ghost use Rattle.std.specs.Prelude.{◌≡◌, ◌≤◌, [], IfSome, length};
ghost use Rattle.mls_tilepool.specs.Pools.{IsOwner, count_of, room_of, tiles_of};
ghost use Rattle.mls_stitch.specs.Tilings.{ChangesOnly, HasPlane, IsMaximal, shown};
ghost use Rattle.mls_geom.specs.Locality.{AreUnorderedStrips};
ghost use Rattle.mls_geom.specs.Pictures.{picture_of};
ghost use Rattle.mls_geom.specs.World.{world};

use crate::place::place_all;
use crate::stitching::stitch_from;
use crate::{Plane, Scratch};
use mls_geom::Piece;
use mls_tilepool::{Owner, Pool};

impl Plane {
    /// Makes the plane that the pieces show, under an owner that has no tile: one tile for each piece, stitched.
    ///
    /// The pieces are the maximal strips of a picture, in any order.
    pub fn build(pool: &mut Pool, owner: Owner, pieces: &[Piece], scratch: &mut Scratch) -> Plane
        requires live { IsOwner pool.old owner }
        requires empty { tiles_of pool.old owner ≡ [] }
        requires strips { AreUnorderedStrips world (picture_of pieces.now) pieces.now }
        requires room { IfSome (room_of pool.old owner) (λ room. length pieces.now ≤ room) }
        requires scratch { length pieces.now ≤ scratch.old.room }
        ensures plane { HasPlane pool.new result }
        ensures picture { shown (tiles_of pool.new result) ≡ picture_of pieces.now }
        ensures maximal { IsMaximal (tiles_of pool.new result) }
        ensures count { count_of pool.new result ≡ length pieces.now }
        ensures owner { result ≡ owner }
        ensures only { ChangesOnly pool.old pool.new owner }
        ensures scratch_room { scratch.new.room ≡ scratch.old.room }
    {
        scratch.entries.clear();
        place_all(pool, &owner, pieces, &mut scratch.entries);
        stitch_from(pool, &owner, 0, &mut scratch.entries, &mut scratch.found);
        Plane { owner }
    }
}
