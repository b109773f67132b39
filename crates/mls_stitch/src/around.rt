//! The tiles around touched ones.
ghost use Rattle.std.specs.Prelude.{◌≡◌, ◌≢◌, ◌↔◌, ◌⊎◌, ◌++◌, ℕ, ◌+◌, ◌≤◌, IsSome, IsTrue, filter, length, vec_len, vec_capacity};
ghost use Rattle.std.specs.List.{All, AllPairs, Contains};
ghost use Rattle.std.specs.List.Sorted.{IsNonDecreasing};
ghost use Rattle.mls_tilepool.specs.Pools.{count_of, tile_at, tiles_of};
ghost use Rattle.mls_geom.specs.Rects.{meets};
ghost use Rattle.mls_stitch.specs.Areas.{AreSearched};
ghost use Rattle.mls_stitch.specs.Placing.{IsLost, KeepsKeys, Surround, unlisted_of};
ghost use Rattle.mls_stitch.specs.Tilings.{HasPlane, block_at};

use crate::bounds::bounds_of_tiles;
use crate::enumeration::list_tiles;
use crate::laid_tile::laid;
use crate::parts::parts_lost;
use crate::scan::scan_area;
use crate::steps::{Steps, are_many};
use crate::{LaidTile, Replacement};
use mls_geom::Rect;
use mls_tilepool::{Owner, Pool, TileId};

/// How many steps the searches round single tiles take at most for each tile of the plane.
const STEPS_FOR_EACH: usize = 4;

/// Lists the keys of the touched tiles in ascending order.
fn list_keys(touched: &[TileId], keys: &mut Vec<usize>)
    requires { length touched.now ≤ vec_capacity keys.old }
    ensures ascending { IsNonDecreasing keys.new.items }
    ensures members { (key : ℕ) → Contains keys.new.items key ↔ Contains touched.now key }
    ensures room { vec_capacity keys.new ≡ vec_capacity keys.old }
{
    keys.clear();
    for id in touched {
        keys.push_reserved(id.key());
    }
    keys.sort_unstable();
}

/// Sorts the tiles by their names, and removes duplicates.
pub(crate) fn sort_dedup(entries: &mut Vec<LaidTile>)
    ensures once { AllPairs (λ p q. p.id ≢ q.id) entries.new.items }
    ensures keeps { KeepsKeys entries.old.items entries.new.items }
    ensures room { vec_capacity entries.new ≡ vec_capacity entries.old }
{
    entries.sort_unstable_by_key(|entry| entry.id.key());
    entries.dedup_by_key(|entry| entry.id.key());
}

/// Removes duplicates where there isn't room for that many more tiles.
pub(crate) fn free_room(entries: &mut Vec<LaidTile>, more: usize)
    ensures free { (vec_len entries.new + more ≤ vec_capacity entries.new)
        ⊎ AllPairs (λ p q. p.id ≢ q.id) entries.new.items }
    ensures keeps { KeepsKeys entries.old.items entries.new.items }
    ensures room { vec_capacity entries.new ≡ vec_capacity entries.old }
{
    if entries.capacity() - entries.len() < more {
        sort_dedup(entries);
    }
}

/// Adds those of the tiles whose keys are not listed.
fn list_kept(found: &[LaidTile], keys: &[usize], entries: &mut Vec<LaidTile>)
    requires ascending { IsNonDecreasing keys.now }
    requires room { vec_len entries.old + length found.now ≤ vec_capacity entries.old }
    ensures kept { entries.new.items ≡ entries.old.items ++ unlisted_of keys.now found.now }
    ensures room { vec_capacity entries.new ≡ vec_capacity entries.old }
{
    for tile in found {
        if keys.binary_search(&tile.id.key()).is_err() {
            entries.push_reserved(*tile);
        }
    }
}

/// Fills `found` with those of the tiles that have a square of the area.
fn list_meeting(tiles: &[LaidTile], area: Rect, found: &mut Vec<LaidTile>)
    requires room { length tiles.now ≤ vec_capacity found.old }
    ensures found { found.new.items ≡ filter (λ tile. meets tile.piece.rect area) tiles.now }
    ensures room { vec_capacity found.new ≡ vec_capacity found.old }
{
    found.clear();
    for tile in tiles {
        if tile.meets(area) {
            found.push_reserved(*tile);
        }
    }
}

/// Lists the tiles round the squares that each touched tile loses in turn, other than the ones with the keys. A tile
/// may be listed more than once. Where the tiles of an area are found already, none is searched there again.
///
/// Returns `false` if that takes more than a few steps for each tile of the plane, or there are many to go round.
fn list_round_lost(
    pool: &Pool,
    owner: &Owner,
    replacement: &Replacement<'_>,
    keys: &[usize],
    found: &mut Vec<LaidTile>,
    entries: &mut Vec<LaidTile>,
) -> bool
    requires plane { HasPlane pool.now owner.now }
    requires there { All (λ key. IsSome (tile_at pool.now owner.now key)) replacement.now.touched.now }
    requires searched { AreSearched (block_at (tiles_of pool.now owner.now)) replacement.now.searched
        replacement.now.around.now }
    requires ascending { IsNonDecreasing keys.now }
    requires found_fit { count_of pool.now owner.now ≤ vec_capacity found.old }
    requires entries_fit { count_of pool.now owner.now + count_of pool.now owner.now
        ≤ vec_capacity entries.old }
    ensures around { IsTrue result → Surround (block_at (tiles_of pool.now owner.now)) keys.now
        (IsLost (block_at (tiles_of pool.now owner.now)) replacement.now.touched.now replacement.now.fresh.now)
        entries.new.items }
    ensures found_room { vec_capacity found.new ≡ vec_capacity found.old }
    ensures entries_room { vec_capacity entries.new ≡ vec_capacity entries.old }
{
    let tiles = pool.count(owner) as usize;
    let gone = replacement
        .touched
        .len()
        .saturating_sub(replacement.fresh.len());
    if are_many(gone, tiles) {
        return false;
    }
    let mut steps = Steps::up_to(STEPS_FOR_EACH * tiles);
    let mut index = 0;
    entries.clear();
    for id in replacement.touched {
        let whole = laid(pool, owner, *id).unwrap().piece.rect;
        let parts = parts_lost(whole, replacement.rect_at(index));
        for part in &parts {
            if let Some(part) = part {
                let round = part.grow(1);
                if replacement.has_searched(round) {
                    list_meeting(replacement.around, round, found);
                } else {
                    list_tiles(pool, owner, *id, round, found, &mut steps);
                }
                if steps.are_spent() {
                    return false;
                }
                free_room(entries, found.len());
                list_kept(found, keys, entries);
            }
        }
        index += 1;
    }
    true
}

/// Lists tiles other than the touched ones, each once, and among them all that have a square close to one that a
/// touched tile loses.
pub(crate) fn list_around(
    pool: &Pool,
    owner: &Owner,
    replacement: &Replacement<'_>,
    keys: &mut Vec<usize>,
    found: &mut Vec<LaidTile>,
    entries: &mut Vec<LaidTile>,
)
    requires plane { HasPlane pool.now owner.now }
    requires there { All (λ key. IsSome (tile_at pool.now owner.now key)) replacement.now.touched.now }
    requires searched { AreSearched (block_at (tiles_of pool.now owner.now)) replacement.now.searched
        replacement.now.around.now }
    requires keys_fit { length replacement.now.touched.now ≤ vec_capacity keys.old }
    requires found_fit { count_of pool.now owner.now ≤ vec_capacity found.old }
    requires entries_fit { count_of pool.now owner.now + count_of pool.now owner.now
        ≤ vec_capacity entries.old }
    ensures around { Surround (block_at (tiles_of pool.now owner.now)) replacement.now.touched.now
        (IsLost (block_at (tiles_of pool.now owner.now)) replacement.now.touched.now replacement.now.fresh.now)
        entries.new.items }
    ensures once { AllPairs (λ p q. p.id ≢ q.id) entries.new.items }
    ensures few { vec_len entries.new ≤ count_of pool.now owner.now }
    ensures keys_room { vec_capacity keys.new ≡ vec_capacity keys.old }
    ensures found_room { vec_capacity found.new ≡ vec_capacity found.old }
    ensures entries_room { vec_capacity entries.new ≡ vec_capacity entries.old }
{
    let touched = replacement.touched;
    list_keys(touched, keys);
    if !list_round_lost(pool, owner, replacement, keys, found, entries) {
        entries.clear();
        if let Some(bounds) = bounds_of_tiles(pool, owner, touched) {
            scan_area(pool, owner, bounds.grow(1), found);
            list_kept(found, keys, entries);
        }
    }
    sort_dedup(entries);
}
