//! Planes of space, and what a plane shows.
ghost use Rattle.std.specs.Prelude.{◌≡◌, ◌+◌, ◌<◌, ◌≤◌, ◌↔◌, IfOk, IfSome, IsErr, OnErr, OnOk, [], ◌∷◌, length, map};
ghost use Rattle.mls_geom.specs.Pictures.{empty_picture, kinds_in};
ghost use Rattle.mls_geom.specs.StripLists.{strips_of};
ghost use Rattle.mls_geom.specs.Strips.{AreStrips};
ghost use Rattle.mls_geom.specs.TileCounts.{tile_count};
ghost use Rattle.mls_geom.specs.World.{world};
ghost use Rattle.mls_tilepool.specs.Pools.{IsOwner, count_of, room_of, tiles_of, unreserved};
ghost use Rattle.mls_stitch.specs.Areas.{AreInArea, MeetArea};
ghost use Rattle.mls_stitch.specs.Tilings.{HasPlane, block_at};
ghost use Rattle.mls_paint.specs.Owners.{RemovesOwners};
ghost use Rattle.mls_paint.specs.Planes.{AddsOwner, HasStrips, picture_in};
ghost use Rattle.mls_paint.specs.Scratches.{HasRoomFor, KeepsRoom};

use crate::Scratch;
use mls_geom::{Piece, Rect};
use mls_kinds::{Kind, KindSet};
use mls_stitch::{Plane, Scratch as Search};
use mls_tilepool::{Pool, PoolFull};

/// Makes a plane of space, and reserves `tiles` tiles for it.
///
/// Fails if fewer are unreserved, and leaves the pool as it was.
pub fn space_plane(pool: &mut Pool, tiles: u32, scratch: &mut Scratch) -> Result<Plane, PoolFull>
    requires some { 1 ≤ tiles }
    requires room { 1 ≤ scratch.old.room }
    ensures full { IsErr result ↔ (unreserved pool.old < tiles) }
    ensures strips { IfOk result (λ plane. HasStrips pool.new plane) }
    ensures space { IfOk result (λ plane. picture_in pool.new plane ≡ empty_picture) }
    ensures added { IfOk result (λ plane. AddsOwner pool.old pool.new plane tiles) }
    ensures taken { OnOk result (unreserved pool.new + tiles ≡ unreserved pool.old) }
    ensures refused { OnErr result (pool.new ≡ pool.old) }
    ensures plans { scratch.new.plans ≡ scratch.old.plans }
    ensures rooms { KeepsRoom scratch.old scratch.new }
{
    let owner = pool.reserve(tiles)?;
    let space = Piece {
        rect: Rect::world(),
        kind: Kind::SPACE,
    };
    Ok(Plane::build(pool, owner, &[space], &mut scratch.search))
}

/// Gives the plane's tiles and its reserve back to the pool.
pub fn release_plane(pool: &mut Pool, plane: Plane)
    requires live { IsOwner pool.old plane }
    ensures removed { IfSome (room_of pool.old plane) (λ room. RemovesOwners pool.old pool.new (plane ∷ []) room) }
{
    pool.release(plane.into_owner());
}

/// Returns the lists, which have room for all tiles of the plane: it never has more tiles than are reserved for it.
pub(crate) fn lists_for<'a>(pool: &Pool, plane: &Plane, lists: &'a mut Search) -> &'a mut Search
    requires plane { HasPlane pool.now plane.now }
    requires room { IfSome (room_of pool.now plane.now) (λ room. room ≤ lists.old.room) }
    ensures same { result.ghost_name ≡ lists.entry.ghost_name }
    ensures lists { result.now ≡ lists.old }
    ensures room { count_of pool.now plane.now ≤ lists.old.room }
{
    prove!(pool.count(plane.owner()) <= pool.room(plane.owner()));
    lists
}

/// Finds the tiles that have a square of the area, by their bottom, clipped to the area, and then their left, and
/// leaves them in the scratch.
pub fn find_area(pool: &Pool, plane: &Plane, area: Rect, scratch: &mut Scratch)
    requires plane { HasPlane pool.now plane.now }
    requires room { HasRoomFor pool.now plane.now scratch.old }
    ensures found { AreInArea (block_at (tiles_of pool.now plane.now)) area scratch.new.tiles }
    ensures plans { scratch.new.plans ≡ scratch.old.plans }
    ensures rooms { KeepsRoom scratch.old scratch.new }
{
    plane.area(pool, area, lists_for(pool, plane, &mut scratch.search));
}

/// Finds the tiles that have a square of the area, in any order, and leaves them in the scratch.
pub fn find_meeting(pool: &Pool, plane: &Plane, area: Rect, scratch: &mut Scratch)
    requires plane { HasPlane pool.now plane.now }
    requires room { HasRoomFor pool.now plane.now scratch.old }
    ensures found { MeetArea (block_at (tiles_of pool.now plane.now)) area scratch.new.tiles }
    ensures plans { scratch.new.plans ≡ scratch.old.plans }
    ensures rooms { KeepsRoom scratch.old scratch.new }
{
    plane.meeting(pool, area, lists_for(pool, plane, &mut scratch.search));
}

/// Finds all tiles of the plane, by bottom and then left, and leaves them in the scratch.
pub fn strips_of(pool: &Pool, plane: &Plane, scratch: &mut Scratch)
    requires strips { HasStrips pool.now plane.now }
    requires room { HasRoomFor pool.now plane.now scratch.old }
    ensures found { AreInArea (block_at (tiles_of pool.now plane.now)) world scratch.new.tiles }
    ensures strips { AreStrips world (picture_in pool.now plane.now) (map (λ tile. tile.piece) scratch.new.tiles) }
    ensures listed { map (λ tile. tile.piece) scratch.new.tiles ≡ strips_of world (picture_in pool.now plane.now) }
    ensures plans { scratch.new.plans ≡ scratch.old.plans }
    ensures rooms { KeepsRoom scratch.old scratch.new }
{
    plane.strips_of(pool, lists_for(pool, plane, &mut scratch.search));
}

/// Returns the kinds below 64 that the squares of the rectangle have.
pub fn kinds(pool: &Pool, plane: &Plane, rect: Rect, scratch: &mut Scratch) -> KindSet
    requires plane { HasPlane pool.now plane.now }
    requires room { HasRoomFor pool.now plane.now scratch.old }
    ensures kinds { result ≡ kinds_in (picture_in pool.now plane.now) rect }
    ensures plans { scratch.new.plans ≡ scratch.old.plans }
    ensures rooms { KeepsRoom scratch.old scratch.new }
{
    find_area(pool, plane, rect, scratch);
    let mut kinds = KindSet::empty();
    for tile in scratch.tiles() {
        kinds.insert(tile.piece.kind);
    }
    kinds
}

/// Returns how many maximal strips the plane has, in one step.
pub fn tile_count(pool: &Pool, plane: &Plane) -> u32
    requires { HasStrips pool.now plane.now }
    ensures { result ≡ tile_count world (picture_in pool.now plane.now) }
{
    pool.count(plane.owner())
}
