//! The enumeration of an area's tiles (Ousterhout 1984), each of which has one parent.
ghost use Rattle.std.specs.Prelude.{◌≡◌, ◌+◌, ◌<◌, ◌≤◌, false, vec_len, vec_capacity};
ghost use Rattle.mls_geom.specs.Rects.{IsRectangleIn};
ghost use Rattle.mls_geom.specs.World.{world};
ghost use Rattle.mls_tilepool.specs.Pools.{count_of, tiles_of};
ghost use Rattle.std.specs.List.{AllPairs};
ghost use Rattle.std.specs.List.Sorted.{IsPermutation};
ghost use Rattle.mls_stitch.specs.Areas.{comes_first};
ghost use Rattle.mls_stitch.specs.Enumerations.{IsListedTo};
ghost use Rattle.mls_stitch.specs.Tilings.{HasPlane, block_at};

use crate::LaidTile;
use crate::laid_tile::{bottom_beyond, laid_to, left_beyond};
use crate::steps::Steps;
use crate::walk::find_near;
use mls_geom::{Point, Rect};
use mls_tilepool::{Owner, Pool, TileId};

/// Lists the right neighbours of the tile at the index of which it is the parent, from the top down.
fn push_children(
    pool: &Pool,
    owner: &Owner,
    area: Rect,
    index: usize,
    list: &mut Vec<LaidTile>,
    steps: &mut Steps,
)
    requires plane { HasPlane pool.now owner.now }
    requires legal { IsRectangleIn world area }
    requires room { count_of pool.now owner.now ≤ vec_capacity list.old }
    requires within { index < vec_len list.old }
    requires listed { IsListedTo (block_at (tiles_of pool.now owner.now)) area list.old.items index world.top }
    ensures listed { IsListedTo (block_at (tiles_of pool.now owner.now)) area list.new.items (index + 1) world.top }
    ensures longer { vec_len list.old ≤ vec_len list.new }
    ensures room { vec_capacity list.new ≡ vec_capacity list.old }
{
    let bounds = area.area();
    let parent = list[index];
    let sides = parent.sides();
    if bounds.right <= sides.right {
        return;
    }
    let last_row = sides.bottom.max(bounds.bottom);
    let mut line = sides.top;
    let mut next = pool.get(owner, parent.id).unwrap().tr;
    'neighbours: while last_row < line {
        steps.take();
        let id = next.unwrap();
        let tile = pool.get(owner, id).unwrap();
        let bottom = tile.corner.row();
        let above = tile.rt;
        next = tile.lb;
        // A child has its first row in the area beside the parent.
        if (last_row..bounds.top).contains(&bottom.max(bounds.bottom)) {
            let right = left_beyond(pool, owner, tile.tr);
            // The neighbour passed before ends at the line.
            let top = if line < sides.top {
                line
            } else {
                bottom_beyond(pool, owner, above)
            };
            list.push_reserved(laid_to(id, &tile, right, top));
        }
        line = bottom;
    }
}

/// Fills `list` with the tiles on the area's left side, from the bottom up.
fn list_left_side(
    pool: &Pool,
    owner: &Owner,
    from: TileId,
    area: Rect,
    list: &mut Vec<LaidTile>,
    steps: &mut Steps,
)
    requires plane { HasPlane pool.now owner.now }
    requires room { count_of pool.now owner.now ≤ vec_capacity list.old }
    ensures legal { IsRectangleIn world area }
    ensures listed { IsListedTo (block_at (tiles_of pool.now owner.now)) area list.new.items 0 world.top }
    ensures room { vec_capacity list.new ≡ vec_capacity list.old }
{
    list.clear();
    let bounds = area.area();
    let mut line = bounds.bottom;
    let mut near = from;
    let mut from = from;
    'side: while line < bounds.top {
        let tile = find_near(pool, owner, near, from, Point::at(bounds.left, line), steps);
        let sides = tile.sides();
        let above = pool.get(owner, tile.id).and_then(|tile| tile.rt);
        near = above.unwrap_or(tile.id);
        // A tile that reaches beyond the area may have many more neighbours there.
        if sides.right <= bounds.right {
            from = near;
        }
        list.push_reserved(tile);
        line = sides.top;
    }
}

/// Fills `list` with the tiles that have a square of the area, each once, in any order.
pub(crate) fn list_tiles(
    pool: &Pool,
    owner: &Owner,
    from: TileId,
    area: Rect,
    list: &mut Vec<LaidTile>,
    steps: &mut Steps,
)
    requires plane { HasPlane pool.now owner.now }
    requires room { count_of pool.now owner.now ≤ vec_capacity list.old }
    ensures legal { IsRectangleIn world area }
    ensures listed { IsListedTo (block_at (tiles_of pool.now owner.now)) area list.new.items
        (vec_len list.new) world.top }
    ensures room { vec_capacity list.new ≡ vec_capacity list.old }
{
    list_left_side(pool, owner, from, area, list, steps);
    let mut index = 0;
    'tiles: while index < list.len() {
        push_children(pool, owner, area, index, list, steps);
        index += 1;
    }
}

/// Sorts tiles by their first row in the area, and then by their left.
pub(crate) fn sort_rows(area: Rect, list: &mut Vec<LaidTile>)
    ensures sorted { AllPairs (λ p q. comes_first area q p ≡ false) list.new.items }
    ensures same { IsPermutation list.old.items list.new.items }
    ensures room { vec_capacity list.new ≡ vec_capacity list.old }
{
    let bottom = area.area().bottom;
    list.sort_unstable_by_key(|tile| {
        let sides = tile.sides();
        (sides.bottom.max(bottom), sides.left)
    });
}
