//! Replacing tiles.
ghost use Rattle.std.specs.Prelude.{◌≡◌, ◌+◌, ◌<◌, ◌≤◌, ◌↔◌, IfSome, OnOk, OnErr, IsErr, IsSomeAnd, length};
ghost use Rattle.mls_tilepool.specs.Pools.{count_of, room_of, tiles_of};
ghost use Rattle.mls_stitch.specs.Areas.{AreSearched};
ghost use Rattle.mls_stitch.specs.Tilings.{ChangesOnly, HasPlane, block_at};
ghost use Rattle.mls_stitch.specs.Replacements.{Replaces, TakePlace};

use crate::around::list_around;
use crate::place::place_instead;
use crate::stitching::stitch_from;
use crate::{Plane, Replacement, Scratch};
use mls_tilepool::{NoRoom, Pool};

impl Plane {
    /// Replaces the touched tiles by pieces over exactly their squares.
    ///
    /// All other tiles keep their names, rectangles and kinds, and each stitch that did not lead to a touched tile.
    /// The names of touched tiles serve again as far as they go. Fails if the owner has no room for more tiles, and
    /// then leaves all as it was.
    pub fn replace(
        &mut self,
        pool: &mut Pool,
        replacement: &Replacement<'_>,
        scratch: &mut Scratch,
    ) -> Result<(), NoRoom>
        requires plane { HasPlane pool.old self.old }
        requires pieces { TakePlace (block_at (tiles_of pool.old self.old)) replacement.now.touched.now
            replacement.now.fresh.now }
        requires searched { AreSearched (block_at (tiles_of pool.old self.old)) replacement.now.searched
            replacement.now.around.now }
        requires tiles_fit { count_of pool.old self.old ≤ scratch.old.room }
        requires pieces_fit { length replacement.now.fresh.now ≤ scratch.old.room }
        ensures no_room { IsErr result ↔ IsSomeAnd (room_of pool.old self.old)
            (λ room. room + length replacement.now.touched.now
            < count_of pool.old self.old + length replacement.now.fresh.now) }
        ensures within { IfSome (room_of pool.old self.old) (λ room. count_of pool.old self.old ≤ room) }
        ensures replaced { OnOk result (Replaces (tiles_of pool.old self.old)
            (tiles_of pool.new self.old) replacement.now.touched.now replacement.now.fresh.now) }
        ensures refused { OnErr result (pool.new ≡ pool.old) }
        ensures plane { self.new ≡ self.old }
        ensures home { HasPlane pool.new self.old }
        ensures only { ChangesOnly pool.old pool.new self.old }
        ensures scratch_room { scratch.new.room ≡ scratch.old.room }
    {
        let touched = replacement.touched;
        let fresh = replacement.fresh;
        let unused = (pool.room(&self.owner) - pool.count(&self.owner)) as usize;
        if fresh.len() > unused + touched.len() {
            return Err(NoRoom);
        }
        list_around(
            pool,
            &self.owner,
            replacement,
            &mut scratch.touched,
            &mut scratch.found,
            &mut scratch.entries,
        );
        let kept = scratch.entries.len();
        place_instead(pool, &self.owner, touched, fresh, &mut scratch.entries);
        scratch.hints.keep_last(&self.owner, &scratch.entries);
        stitch_from(
            pool,
            &self.owner,
            kept,
            &mut scratch.entries,
            &mut scratch.found,
        );
        Ok(())
    }
}
