//! Walks from tile to tile along stitches.
ghost use Rattle.std.specs.Prelude.{◌≡◌, IfSome, Some};
ghost use Rattle.mls_tilepool.specs.Pools.{tile_at, tiles_of};
ghost use Rattle.mls_stitch.specs.Tilings.{HasPlane, block_at};
ghost use Rattle.mls_stitch.specs.Walks.{EndsAt, IsLaidAt};

use crate::LaidTile;
use crate::laid_tile::{bottom_beyond, laid, laid_to, left_beyond};
use crate::steps::Steps;
use mls_geom::Point;
use mls_tilepool::{Owner, Pool, Tile, TileId};

/// The greatest number of tiles that a walk goes through.
const MOST_STEPS: u32 = 4096;

/// A step of a walk to a square.
enum Step {
    /// Along a stitch, if it names a tile.
    To(Option<TileId>),
    /// The last one, at the tile that holds the square.
    End(LaidTile),
}

/// Returns the next step of a walk from the tile to the square. Looks up the tile above and the one on the right only
/// where these tell.
fn step_towards(pool: &Pool, owner: &Owner, id: TileId, tile: &Tile, at: Point) -> Step
    requires plane { HasPlane pool.now owner.now }
    requires there { tile_at pool.now owner.now id ≡ Some tile.now }
    ensures { EndsAt (block_at (tiles_of pool.now owner.now)) at result }
{
    if at.row() < tile.corner.row() {
        return Step::To(tile.lb);
    }
    let top = bottom_beyond(pool, owner, tile.rt);
    if top <= at.row() {
        return Step::To(tile.rt);
    }
    if at.column() < tile.corner.column() {
        return Step::To(tile.bl);
    }
    let right = left_beyond(pool, owner, tile.tr);
    if right <= at.column() {
        return Step::To(tile.tr);
    }
    Step::End(laid_to(id, tile, right, top))
}

/// Walks from a tile to the one that holds the square (Ousterhout 1984, point finding), by turns with a walk from
/// another tile, if there is one, so that both take at most twice the steps of the shorter way. Gives up after many
/// steps, and where the owner has no such tile to start from.
fn walk(
    pool: &Pool,
    owner: &Owner,
    from: TileId,
    other: Option<TileId>,
    at: Point,
    steps: &mut Steps,
) -> Option<LaidTile>
    requires { HasPlane pool.now owner.now }
    ensures { IfSome result (λ tile. IsLaidAt (block_at (tiles_of pool.now owner.now)) at tile) }
{
    let mut id = from;
    let mut other = other;
    for _ in 0..MOST_STEPS {
        steps.take();
        let Some(tile) = pool.get(owner, id) else {
            id = other.take()?;
            continue;
        };
        let next = match step_towards(pool, owner, id, &tile, at) {
            Step::To(next) => next?,
            Step::End(found) => return Some(found),
        };
        id = match other {
            Some(id) => id,
            None => next,
        };
        other = other.and(Some(next));
    }
    None
}

/// Looks at each tile of the owner for the one that holds the square.
fn scan(pool: &Pool, owner: &Owner, at: Point, steps: &mut Steps) -> LaidTile
    requires { HasPlane pool.now owner.now }
    ensures { IsLaidAt (block_at (tiles_of pool.now owner.now)) at result }
{
    for (id, _) in pool.tiles(owner) {
        steps.take();
        let tile = laid(pool, owner, id).filter(|tile| tile.holds(at));
        if let Some(tile) = tile {
            return tile;
        }
    }
    unreachable!()
}

/// Returns the tile that holds the square. The search goes from both tiles, which may be one, if the owner has these.
pub(crate) fn find_near(
    pool: &Pool,
    owner: &Owner,
    near: TileId,
    from: TileId,
    at: Point,
    steps: &mut Steps,
) -> LaidTile
    requires { HasPlane pool.now owner.now }
    ensures { IsLaidAt (block_at (tiles_of pool.now owner.now)) at result }
{
    let other = if near == from { None } else { Some(from) };
    match walk(pool, owner, near, other, at, steps) {
        Some(tile) => tile,
        None => scan(pool, owner, at, steps),
    }
}
