//! Finding the tile that holds a square.
ghost use Rattle.std.specs.Prelude.{◌≡◌};
ghost use Rattle.mls_tilepool.specs.Pools.{tiles_of};
ghost use Rattle.mls_stitch.specs.Tilings.{HasPlane, block_at};
ghost use Rattle.mls_stitch.specs.Stitches.{HoldsAt};

use crate::steps::Steps;
use crate::walk::find_near;
use crate::{Plane, Scratch};
use mls_geom::Point;
use mls_tilepool::{Pool, TileId};

impl Plane {
    /// Returns the tile that holds the square, and keeps it in hand.
    ///
    /// Goes along stitches from a tile in hand (Ousterhout 1984, point finding); after a bound of turns looks at
    /// each tile of the owner's.
    pub fn find(&self, pool: &Pool, at: Point, scratch: &mut Scratch) -> TileId
        requires { HasPlane pool.now self.now }
        ensures holds { HoldsAt (block_at (tiles_of pool.now self.now)) result at }
        ensures scratch { scratch.new ≡ scratch.old }
    {
        let mut steps = Steps::up_to(usize::MAX);
        let from = scratch.hints.start(pool, &self.owner, at);
        let tile = find_near(pool, &self.owner, from, from, at, &mut steps);
        scratch.hints.keep(&self.owner, at, Some(&tile));
        tile.id
    }
}
