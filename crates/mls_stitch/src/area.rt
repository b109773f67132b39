//! Area search.
ghost use Rattle.std.specs.Prelude.{◌≡◌, ◌≤◌, Some, length, map, vec_capacity};
ghost use Rattle.mls_geom.specs.Pictures.{picture_of};
ghost use Rattle.mls_geom.specs.Rects.{IsRectangleIn};
ghost use Rattle.mls_geom.specs.Strips.{AreStrips};
ghost use Rattle.mls_geom.specs.World.{world};
ghost use Rattle.mls_tilepool.specs.Pools.{count_of, tiles_of};
ghost use Rattle.mls_stitch.specs.Areas.{AreInArea, AreSearched, MeetArea};
ghost use Rattle.mls_stitch.specs.Tilings.{HasPlane, IsMaximal, block_at, shown};

use crate::enumeration::{list_tiles, sort_rows};
use crate::hints::Hints;
use crate::steps::Steps;
use crate::{LaidTile, Plane, Scratch};
use mls_geom::{Point, Rect};
use mls_tilepool::Pool;

impl Plane {
    /// Fills `list` with the tiles that have a square of the area, each once, in any order. The search starts at the
    /// tile in hand that was found closest to the square `near`, and the first tile is kept in hand for it.
    pub(crate) fn search(
        &self,
        pool: &Pool,
        near: Point,
        area: Rect,
        hints: &mut Hints,
        list: &mut Vec<LaidTile>,
    )
        requires plane { HasPlane pool.now self.now }
        requires room { count_of pool.now self.now ≤ vec_capacity list.old }
        ensures legal { IsRectangleIn world area }
        ensures found { AreSearched (block_at (tiles_of pool.now self.now)) (Some area) list.new.items }
        ensures room { vec_capacity list.new ≡ vec_capacity list.old }
    {
        let from = hints.start(pool, &self.owner, near);
        let mut steps = Steps::up_to(usize::MAX);
        list_tiles(pool, &self.owner, from, area, list, &mut steps);
        hints.keep(&self.owner, near, list.first());
    }

    /// Finds the tiles that have a square of the area, by their bottom, clipped to the area, and then their left, and
    /// leaves them in the scratch (Ousterhout 1984, area enumeration).
    pub fn area(&self, pool: &Pool, area: Rect, scratch: &mut Scratch)
        requires plane { HasPlane pool.now self.now }
        requires room { count_of pool.now self.now ≤ scratch.old.room }
        ensures found { AreInArea (block_at (tiles_of pool.now self.now)) area scratch.new.tiles }
        ensures scratch_room { scratch.new.room ≡ scratch.old.room }
    {
        let Scratch { hints, tiles, .. } = scratch;
        self.search(pool, area.corner(), area, hints, tiles);
        sort_rows(area, tiles);
    }

    /// Finds the tiles that have a square of the area, in any order, and leaves them in the scratch.
    pub fn meeting(&self, pool: &Pool, area: Rect, scratch: &mut Scratch)
        requires plane { HasPlane pool.now self.now }
        requires room { count_of pool.now self.now ≤ scratch.old.room }
        ensures found { MeetArea (block_at (tiles_of pool.now self.now)) area scratch.new.tiles }
        ensures scratch_room { scratch.new.room ≡ scratch.old.room }
    {
        let Scratch { hints, tiles, .. } = scratch;
        self.search(pool, area.corner(), area, hints, tiles);
    }

    /// Finds all tiles of the plane, by bottom and then left, and leaves them in the scratch.
    pub fn strips_of(&self, pool: &Pool, scratch: &mut Scratch)
        requires plane { HasPlane pool.now self.now }
        requires room { count_of pool.now self.now ≤ scratch.old.room }
        ensures found { AreInArea (block_at (tiles_of pool.now self.now)) world scratch.new.tiles }
        ensures picture { picture_of (map (λ tile. tile.piece) scratch.new.tiles) ≡ shown (tiles_of pool.now self.now) }
        ensures strips { IsMaximal (tiles_of pool.now self.now)
            → AreStrips world (shown (tiles_of pool.now self.now)) (map (λ tile. tile.piece) scratch.new.tiles) }
        ensures count { length scratch.new.tiles ≡ count_of pool.now self.now }
        ensures scratch_room { scratch.new.room ≡ scratch.old.room }
    {
        let world = Rect::world();
        let Scratch { hints, tiles, .. } = scratch;
        let from = hints.start(pool, &self.owner, world.corner());
        let mut steps = Steps::up_to(usize::MAX);
        list_tiles(pool, &self.owner, from, world, tiles, &mut steps);
        sort_rows(world, tiles);
    }
}
