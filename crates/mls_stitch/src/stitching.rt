//! Setting the stitches of tiles that lie in place.
ghost use Rattle.std.specs.Prelude.{◌≡◌, ◌≤◌, ◌+◌, ◌++◌, ℕ, IfSome, IsSome, List, Option, Some, length, vec_len, vec_capacity};
ghost use Rattle.std.specs.List.{All};
ghost use Rattle.std.specs.List.Sorted.{IsPermutation};
ghost use Rattle.mls_geom.specs.declared.piece.Piece.{Piece};
ghost use Rattle.mls_tilepool.specs.Pools.{Changes, count_of, tile_at, tiles_of};
ghost use Rattle.mls_stitch.specs.Lookups.{BeginUpTo, AreSortedFor};
ghost use Rattle.mls_stitch.specs.Pending.{AreInPlace, AreSewn, AreSewnAcross, AwaitStitches, IsSewn};
ghost use Rattle.mls_stitch.specs.Stitches.{with_stitch};
ghost use Rattle.mls_stitch.specs.Tilings.{AreTiledAs, ChangesOnly};
ghost use Rattle.mls_stitch.specs.Walks.{IsLaid};
ghost use Rattle.mls_stitch.specs.declared.laid_tile.LaidTile.{LaidTile};

use crate::lookup::{count_beyond, leads_into, start};
use crate::{LaidTile, Stitch};
use mls_tilepool::{Owner, Pool, TileId};

/// Makes a stitch of one of the owner's tiles lead to the tile `to`. Doesn't write a tile whose stitch does already.
fn set_stitch(pool: &mut Pool, owner: &Owner, id: TileId, stitch: Stitch, to: TileId)
    requires { IsSome (tile_at pool.old owner.now id) }
    ensures changes { IfSome (tile_at pool.old owner.now id)
        (λ tile. Changes pool.old pool.new owner.now id (Some (with_stitch stitch (Some to) tile))) }
    ensures count { count_of pool.new owner.now ≡ count_of pool.old owner.now }
{
    if let Some(mut tile) = pool.get(owner, id) {
        if stitch.of(&tile) != Some(to) {
            stitch.set(&mut tile, Some(to));
            pool.set(owner, id, tile);
        }
    }
}

/// Stitches a tile and fresh ones together over one side of the tile. The first `count` of the fresh tiles are those up
/// to the square beyond it: the last of these may be the one to which it is to lead, and the last ones those that are to
/// lead back to it.
fn stitch_side(
    pool: &mut Pool,
    owner: &Owner,
    stitch: Stitch,
    tile: &LaidTile,
    fresh: &[LaidTile],
    count: usize,
)
    requires sorted { AreSortedFor stitch fresh.now }
    requires parted { BeginUpTo stitch tile.now.piece.rect fresh.now count }
    requires place { (blocks : ℕ → Option Piece) × AreInPlace (tiles_of pool.old owner.now) blocks
        × IsLaid blocks tile.now × All (IsLaid blocks) fresh.now }
    ensures sewn { (blocks : ℕ → Option Piece) → AreInPlace (tiles_of pool.old owner.now) blocks
        → IsLaid blocks tile.now → All (IsLaid blocks) fresh.now
        → IsSewn (tiles_of pool.old owner.now) (tiles_of pool.new owner.now) blocks stitch tile.now fresh.now }
    ensures count { count_of pool.new owner.now ≡ count_of pool.old owner.now }
    ensures only { ChangesOnly pool.old pool.new owner.now }
{
    let back = stitch.back();
    let mut rest = count;
    while rest > 0 && leads_into(back, fresh[rest - 1].piece.rect, tile.piece.rect) {
        rest -= 1;
        set_stitch(pool, owner, fresh[rest].id, back, tile.id);
    }
    if count > 0 && leads_into(stitch, tile.piece.rect, fresh[count - 1].piece.rect) {
        set_stitch(pool, owner, tile.id, stitch, fresh[count - 1].id);
    }
}

/// Stitches each of the tiles and fresh ones together over one side of the tile. The fresh tiles are sorted for it.
fn stitch_sides(
    pool: &mut Pool,
    owner: &Owner,
    stitch: Stitch,
    tiles: &[LaidTile],
    fresh: &[LaidTile],
)
    requires sorted { AreSortedFor stitch fresh.now }
    requires place { (blocks : ℕ → Option Piece) × AreInPlace (tiles_of pool.old owner.now) blocks
        × All (IsLaid blocks) tiles.now × All (IsLaid blocks) fresh.now }
    ensures sewn { (blocks : ℕ → Option Piece) → AreInPlace (tiles_of pool.old owner.now) blocks
        → All (IsLaid blocks) tiles.now → All (IsLaid blocks) fresh.now
        → AreSewn (tiles_of pool.old owner.now) (tiles_of pool.new owner.now) blocks stitch tiles.now fresh.now }
    ensures count { count_of pool.new owner.now ≡ count_of pool.old owner.now }
    ensures only { ChangesOnly pool.old pool.new owner.now }
{
    let mut count = 0;
    for tile in tiles {
        // The next tile's square beyond is near this one's where the tiles come in order.
        count = count_beyond(fresh, stitch, tile, count);
        stitch_side(pool, owner, stitch, tile, fresh, count);
    }
}

/// Fills the list with the tiles.
fn list_all(tiles: &[LaidTile], list: &mut Vec<LaidTile>)
    requires { length tiles.now ≤ vec_capacity list.old }
    ensures same { list.new.items ≡ tiles.now }
    ensures room { vec_capacity list.new ≡ vec_capacity list.old }
{
    list.clear();
    for tile in tiles {
        list.push_reserved(*tile);
    }
}

/// Stitches tiles around and fresh ones together over one side of each tile around and over the one across, and the
/// fresh ones over these sides. The fresh ones are listed twice.
fn stitch_across(
    pool: &mut Pool,
    owner: &Owner,
    stitch: Stitch,
    around: &[LaidTile],
    fresh: &mut [LaidTile],
    again: &mut [LaidTile],
)
    requires place { (blocks : ℕ → Option Piece) × AreInPlace (tiles_of pool.old owner.now) blocks
        × All (IsLaid blocks) around.now × All (IsLaid blocks) fresh.old }
    requires same { IsPermutation fresh.old again.old }
    ensures sewn { (blocks : ℕ → Option Piece) → AreInPlace (tiles_of pool.old owner.now) blocks
        → All (IsLaid blocks) around.now → All (IsLaid blocks) fresh.old
        → AreSewnAcross (tiles_of pool.old owner.now) (tiles_of pool.new owner.now) blocks stitch around.now fresh.new }
    ensures moved { IsPermutation fresh.old fresh.new }
    ensures same { IsPermutation fresh.new again.new }
    ensures count { count_of pool.new owner.now ≡ count_of pool.old owner.now }
    ensures only { ChangesOnly pool.old pool.new owner.now }
{
    let back = stitch.back();
    fresh.sort_unstable_by_key(|entry| start(stitch, entry));
    again.sort_unstable_by_key(|entry| start(back, entry));
    stitch_sides(pool, owner, stitch, around, fresh);
    // The squares beyond these come in order, from the other end: the next is found near the one before.
    stitch_sides(pool, owner, stitch, again, fresh);
    stitch_sides(pool, owner, back, around, again);
}

/// Sets each stitch of the listed tiles that leads from or to a fresh one. The first `kept` ones are those around, and the
/// others are fresh. In the order of n log n for n tiles. Works in the list `again`.
pub(crate) fn stitch_from(
    pool: &mut Pool,
    owner: &Owner,
    kept: usize,
    entries: &mut Vec<LaidTile>,
    again: &mut Vec<LaidTile>,
)
    // Some blocks are those as which the tiles are placed.
    requires waits { (blocks : ℕ → Option Piece) × (around : List LaidTile) × (fresh : List LaidTile)
        × (entries.old.items ≡ around ++ fresh) × (length around ≡ kept)
        × AwaitStitches (tiles_of pool.old owner.now) blocks around fresh }
    requires room { vec_len entries.old ≤ vec_capacity again.old + kept }
    ensures stitched { (blocks : ℕ → Option Piece) (around fresh : List LaidTile)
        → entries.old.items ≡ around ++ fresh → length around ≡ kept
        → AwaitStitches (tiles_of pool.old owner.now) blocks around fresh
        → AreTiledAs (tiles_of pool.new owner.now) blocks }
    ensures room { vec_capacity entries.new ≡ vec_capacity entries.old }
    ensures again_room { vec_capacity again.new ≡ vec_capacity again.old }
    ensures count { count_of pool.new owner.now ≡ count_of pool.old owner.now }
    ensures only { ChangesOnly pool.old pool.new owner.now }
{
    let (around, fresh) = entries.split_at_mut(kept);
    list_all(fresh, again);
    stitch_across(pool, owner, Stitch::Rt, around, fresh, again);
    stitch_across(pool, owner, Stitch::Tr, around, fresh, again);
}
