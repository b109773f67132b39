//! Painting pieces over a plane.
ghost use Rattle.std.specs.Prelude.{◌≡◌, ◌<◌, ◌≤◌, ◌↔◌, false, true, IfOk, IfSome, IsErr, IsTrue, OnErr, OnOk, length};
ghost use Rattle.mls_geom.specs.Pictures.{overlaid};
ghost use Rattle.mls_geom.specs.TileCounts.{tile_count};
ghost use Rattle.mls_geom.specs.World.{world};
ghost use Rattle.mls_tilepool.specs.Pools.{room_of, tiles_of};
ghost use Rattle.mls_stitch.specs.Tilings.{ChangesOnly};
ghost use Rattle.mls_paint.specs.Painting.{KeepsUntouched};
ghost use Rattle.mls_paint.specs.Planes.{HasStrips, picture_in};
ghost use Rattle.mls_paint.specs.Scratches.{HasRoomFor, KeepsRoom};

use crate::Scratch;
use crate::planning::{Painting, TURNS, commit, plan, plan_painting};
use mls_geom::{Piece, TooMany};
use mls_stitch::Plane;
use mls_tilepool::Pool;
use thiserror::Error;

/// Where the plan of a painting is kept that is made at once.
const PLACE: usize = 0;

/// How a plane was painted.
#[derive(Clone, Copy, Debug, PartialEq, Eq)]
pub struct Painted {
    /// Whether all tiles were taken as touched, so that nothing is promised of those that no piece touches.
    pub rebuilt: bool,
}

/// The plane would have more tiles than its limit.
#[derive(Clone, Copy, Debug, PartialEq, Eq, Error)]
#[error("too many tiles")]
pub struct TooManyTiles;

impl From<TooMany> for TooManyTiles {
    fn from(_: TooMany) -> TooManyTiles {
        TooManyTiles
    }
}

/// Paints pieces over a plane in turn. The tiles that they touch give way to others, but for those that are strips of
/// the painted plane.
///
/// Fails if the plane would then have more than `limit` tiles, and leaves it as it was. The scratch's first plan gives way
/// to this one.
pub fn overlay(
    pool: &mut Pool,
    plane: &mut Plane,
    over: &[Piece],
    limit: u32,
    scratch: &mut Scratch,
) -> Result<Painted, TooManyTiles>
    requires strips { HasStrips pool.old plane.old }
    requires limit { IfSome (room_of pool.old plane.old) (λ room. limit ≤ room) }
    requires room { HasRoomFor pool.old plane.old scratch.old }
    requires pieces_fit { length over.now ≤ scratch.old.pieces }
    ensures picture { OnOk result (picture_in pool.new plane.old ≡ overlaid (picture_in pool.old plane.old) over.now) }
    ensures strips { HasStrips pool.new plane.old }
    ensures too_many { IsErr result ↔ (limit < tile_count world (overlaid (picture_in pool.old plane.old) over.now)) }
    ensures refused { OnErr result (pool.new ≡ pool.old) }
    ensures kept { IfOk result (λ painted. painted.rebuilt ≡ false
        → KeepsUntouched (tiles_of pool.old plane.old) (tiles_of pool.new plane.old) over.now) }
    ensures only { ChangesOnly pool.old pool.new plane.old }
    ensures plane { plane.new ≡ plane.old }
    ensures rooms { KeepsRoom scratch.old scratch.new }
{
    overlay_within(pool, plane, over, limit, TURNS, scratch)
}

/// Paints pieces over a plane as [`overlay`] does, with at most this many turns for its searches; with none, takes
/// all tiles as touched.
pub fn overlay_within(
    pool: &mut Pool,
    plane: &mut Plane,
    over: &[Piece],
    limit: u32,
    turns: u32,
    scratch: &mut Scratch,
) -> Result<Painted, TooManyTiles>
    requires strips { HasStrips pool.old plane.old }
    requires limit { IfSome (room_of pool.old plane.old) (λ room. limit ≤ room) }
    requires room { HasRoomFor pool.old plane.old scratch.old }
    requires pieces_fit { length over.now ≤ scratch.old.pieces }
    ensures picture { OnOk result (picture_in pool.new plane.old ≡ overlaid (picture_in pool.old plane.old) over.now) }
    ensures strips { HasStrips pool.new plane.old }
    ensures too_many { IsErr result ↔ (limit < tile_count world (overlaid (picture_in pool.old plane.old) over.now)) }
    ensures refused { OnErr result (pool.new ≡ pool.old) }
    ensures kept { IfOk result (λ painted. painted.rebuilt ≡ false
        → KeepsUntouched (tiles_of pool.old plane.old) (tiles_of pool.new plane.old) over.now) }
    ensures rebuilt { IfOk result (λ painted. turns ≡ 0 → painted.rebuilt ≡ true) }
    ensures only { ChangesOnly pool.old pool.new plane.old }
    ensures plane { plane.new ≡ plane.old }
    ensures rooms { KeepsRoom scratch.old scratch.new }
{
    let painting = Painting { over, limit, turns };
    plan_painting(pool, plane, &painting, PLACE, scratch)?;
    commit(pool, plane, PLACE, scratch);
    Ok(Painted {
        rebuilt: turns == 0,
    })
}

/// Returns whether [`overlay`] would succeed. The scratch's first plan gives way to this one.
pub fn fits(pool: &Pool, plane: &Plane, over: &[Piece], limit: u32, scratch: &mut Scratch) -> bool
    requires strips { HasStrips pool.now plane.now }
    requires limit { IfSome (room_of pool.now plane.now) (λ room. limit ≤ room) }
    requires room { HasRoomFor pool.now plane.now scratch.old }
    requires pieces_fit { length over.now ≤ scratch.old.pieces }
    ensures fits { IsTrue result ↔ (tile_count world (overlaid (picture_in pool.now plane.now) over.now) ≤ limit) }
    ensures rooms { KeepsRoom scratch.old scratch.new }
{
    plan(pool, plane, over, limit, PLACE, scratch).is_ok()
}
