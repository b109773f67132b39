//! Planning what is painted over a plane, and painting it by the plan.
ghost use Rattle.std.specs.Prelude.{◌≡◌, ◌≢◌, ◌+◌, ◌<◌, ◌≤◌, ◌↔◌, ◌++◌, ℕ, IfSome, IsErr, OnOk, length, map, vec_capacity};
ghost use Rattle.mls_geom.specs.Locality.{AreCoveredStrips, HaveKinds, covered_count, laid};
ghost use Rattle.mls_geom.specs.Pictures.{overlaid};
ghost use Rattle.mls_geom.specs.TileCounts.{tile_count};
ghost use Rattle.mls_geom.specs.World.{AreLegal, world};
ghost use Rattle.mls_tilepool.specs.Pools.{room_of, tiles_of};
ghost use Rattle.mls_stitch.specs.Tilings.{ChangesOnly};
ghost use Rattle.mls_paint.specs.Painting.{KeepsUntouched};
ghost use Rattle.mls_paint.specs.Planes.{HasStrips, picture_in};
ghost use Rattle.mls_paint.specs.Plans.{IsPlanFor, most_plans};
ghost use Rattle.mls_paint.specs.Scratches.{HasRoomFor, KeepsRoom, plan_of};

use crate::Scratch;
use crate::paint::TooManyTiles;
use crate::planes::lists_for;
use mls_geom::{Piece, Scratch as Sweep, fresh_strips};
use mls_stitch::{LaidTile, Plane};
use mls_tilepool::Pool;

/// How many steps the searches round single pieces take in one call, before one look at each tile serves.
pub(crate) const TURNS: u32 = 1 << 14;

/// Pieces that are painted over a plane in turn, how many tiles it may have then, and how many turns the searches for
/// its tiles take at most.
#[derive(Drop)]
pub(crate) struct Painting<'a> {
    pub(crate) over: &'a [Piece],
    pub(crate) limit: u32,
    pub(crate) turns: u32,
}

/// Plans to paint pieces over a plane in turn, and keeps the plan in the scratch at this place. The plane stays as it
/// is until [`commit`].
///
/// Fails if the plane would then have more than `limit` tiles.
pub fn plan(
    pool: &Pool,
    plane: &Plane,
    over: &[Piece],
    limit: u32,
    place: usize,
    scratch: &mut Scratch,
) -> Result<(), TooManyTiles>
    requires strips { HasStrips pool.now plane.now }
    requires limit { IfSome (room_of pool.now plane.now) (λ room. limit ≤ room) }
    requires room { HasRoomFor pool.now plane.now scratch.old }
    requires pieces_fit { length over.now ≤ scratch.old.pieces }
    requires place { place < most_plans }
    ensures plan { OnOk result (IsPlanFor pool.now plane.now (plan_of scratch.new place)) }
    ensures over { OnOk result ((plan_of scratch.new place).over ≡ over.now) }
    ensures too_many { IsErr result ↔ (limit < tile_count world (overlaid (picture_in pool.now plane.now) over.now)) }
    ensures others { (other : ℕ) → other ≢ place → plan_of scratch.new other ≡ plan_of scratch.old other }
    ensures rooms { KeepsRoom scratch.old scratch.new }
{
    let painting = Painting {
        over,
        limit,
        turns: TURNS,
    };
    plan_painting(pool, plane, &painting, place, scratch)
}

/// Plans a painting of a plane as [`plan`] does.
pub(crate) fn plan_painting(
    pool: &Pool,
    plane: &Plane,
    painting: &Painting<'_>,
    place: usize,
    scratch: &mut Scratch,
) -> Result<(), TooManyTiles>
    requires strips { HasStrips pool.now plane.now }
    requires limit { IfSome (room_of pool.now plane.now) (λ room. painting.now.limit ≤ room) }
    requires room { HasRoomFor pool.now plane.now scratch.old }
    requires pieces_fit { length painting.now.over.now ≤ scratch.old.pieces }
    requires place { place < most_plans }
    ensures plan { OnOk result (IsPlanFor pool.now plane.now (plan_of scratch.new place)) }
    ensures over { OnOk result ((plan_of scratch.new place).over ≡ painting.now.over.now) }
    ensures too_many { IsErr result ↔ (painting.now.limit
        < tile_count world (overlaid (picture_in pool.now plane.now) painting.now.over.now)) }
    ensures others { (other : ℕ) → other ≢ place → plan_of scratch.new other ≡ plan_of scratch.old other }
    ensures rooms { KeepsRoom scratch.old scratch.new }
{
    let count = pool.count(plane.owner()) as usize;
    let over = painting.over;
    let searched = plane.touching(pool, over, painting.turns as usize, &mut scratch.search);
    let Scratch {
        search,
        sweep,
        touched,
        plans,
        ..
    } = scratch;
    let tiles = search.tiles();
    find_fresh(tiles, over, count, painting.limit, touched, sweep)?;
    plans[place].make(tiles, searched, over, sweep.strips(), touched);
    Ok(())
}

/// Paints the pieces of the plan at this place over the plane for which it was made, and which has not changed since.
/// The tiles that they touch give way to others, but for those that are strips of the painted plane.
pub fn commit(pool: &mut Pool, plane: &mut Plane, place: usize, scratch: &mut Scratch)
    requires strips { HasStrips pool.old plane.old }
    requires room { HasRoomFor pool.old plane.old scratch.old }
    requires place { place < most_plans }
    requires plan { IsPlanFor pool.old plane.old (plan_of scratch.old place) }
    requires fits { IfSome (room_of pool.old plane.old) (λ room.
        tile_count world (overlaid (picture_in pool.old plane.old) (plan_of scratch.old place).over) ≤ room) }
    ensures picture { picture_in pool.new plane.old
        ≡ overlaid (picture_in pool.old plane.old) (plan_of scratch.old place).over }
    ensures strips { HasStrips pool.new plane.old }
    ensures kept { KeepsUntouched (tiles_of pool.old plane.old) (tiles_of pool.new plane.old)
        (plan_of scratch.old place).over }
    ensures only { ChangesOnly pool.old pool.new plane.old }
    ensures plane { plane.new ≡ plane.old }
    ensures plans { scratch.new.plans ≡ scratch.old.plans }
    ensures rooms { KeepsRoom scratch.old scratch.new }
{
    let Scratch { search, plans, .. } = scratch;
    let replacement = plans[place].replacement();
    let lists = lists_for(pool, plane, search);
    plane.replace(pool, &replacement, lists).unwrap();
}

/// Finds the strips that take the place of the tiles when pieces are painted over their plane, which has `count` tiles.
/// Fills `touched` with the tiles' rectangles and kinds.
///
/// Fails if the plane would then have more than `limit` tiles.
fn find_fresh(
    tiles: &[LaidTile],
    over: &[Piece],
    count: usize,
    limit: u32,
    touched: &mut Vec<Piece>,
    sweep: &mut Sweep,
) -> Result<(), TooManyTiles>
    requires some { length tiles.now ≤ count }
    requires tiles_fit { length tiles.now + length over.now ≤ vec_capacity touched.old }
    requires pieces_fit { length tiles.now + length over.now ≤ sweep.old.room }
    requires strips_fit { limit ≤ sweep.old.room }
    ensures strips { OnOk result (AreCoveredStrips world
        (laid (map (λ tile. tile.piece) tiles.now ++ over.now)) sweep.new.strips) }
    ensures fits { OnOk result (count + length sweep.new.strips ≤ limit + length tiles.now) }
    ensures too_many { IsErr result ↔ (limit + length tiles.now
        < count + covered_count world (laid (map (λ tile. tile.piece) tiles.now ++ over.now))) }
    ensures kinds { HaveKinds (map (λ tile. tile.piece) tiles.now ++ over.now) }
    ensures legal { AreLegal over.now }
    ensures touched { OnOk result (touched.new.items ≡ map (λ tile. tile.piece) tiles.now) }
    ensures touched_room { vec_capacity touched.old ≤ vec_capacity touched.new }
    ensures sweep_room { sweep.new.room ≡ sweep.old.room }
{
    touched.clear();
    for tile in tiles {
        touched.push_reserved(tile.piece);
    }
    // Their room is reserved, so the call succeeds.
    touched.extend_from_slice(over).unwrap();
    let limit = limit as usize;
    let fresh = fresh_strips(touched, limit, sweep)?;
    touched.truncate(tiles.len());
    let kept = count - tiles.len();
    if limit - fresh < kept {
        return Err(TooManyTiles);
    }
    Ok(())
}
