//! The tiles that pieces touch.
ghost use Rattle.std.specs.Prelude.{◌≡◌, ◌+◌, ◌++◌, ◌≤◌, IfSome, IsSomeAnd, IsTrue, length, vec_len, vec_capacity};
ghost use Rattle.mls_geom.specs.Rects.{IsWithin};
ghost use Rattle.mls_tilepool.specs.Pools.{count_of, tiles_of};
ghost use Rattle.mls_stitch.specs.Areas.{AreSearched, ListTouched};
ghost use Rattle.mls_stitch.specs.Gathering.{EnclosePieces, HasTouched};
ghost use Rattle.mls_stitch.specs.Tilings.{HasPlane, block_at};

use crate::around::{free_room, sort_dedup};
use crate::bounds::bounds_of_pieces;
use crate::enumeration::list_tiles;
use crate::scan::scan_area;
use crate::steps::{Steps, are_many};
use crate::{LaidTile, Plane, Scratch};
use mls_geom::{Piece, Rect};
use mls_tilepool::{Owner, Pool};

/// Adds tiles to a list.
fn list_all(found: &[LaidTile], list: &mut Vec<LaidTile>)
    requires room { vec_len list.old + length found.now ≤ vec_capacity list.old }
    ensures listed { list.new.items ≡ list.old.items ++ found.now }
    ensures room { vec_capacity list.new ≡ vec_capacity list.old }
{
    for tile in found {
        list.push_reserved(*tile);
    }
}

/// Returns the rectangle of the first piece, if it has all others within it.
fn enclosing(over: &[Piece]) -> Option<Rect>
    ensures { IfSome result (λ bounds. EnclosePieces bounds over.now) }
{
    let bounds = over.first()?.rect;
    if over.iter().all(|piece| bounds.encloses(piece.rect)) {
        Some(bounds)
    } else {
        None
    }
}

/// Returns whether the rectangle lies in the one round which tiles were searched last.
fn is_searched(last: &Option<Rect>, rect: Rect) -> bool
    ensures { IsTrue result → IsSomeAnd last.now (λ outer. IsWithin outer rect) }
{
    match last {
        Some(outer) => outer.encloses(rect),
        None => false,
    }
}

/// Lists the tiles round each piece in turn, except those inside the one that was searched round last. A tile may
/// be listed more than once. The search starts at a tile in hand.
///
/// Returns `false` if that takes more than the `turns`, or there are many pieces beside the plane's tiles.
fn list_round_each(
    pool: &Pool,
    owner: &Owner,
    over: &[Piece],
    turns: usize,
    scratch: &mut Scratch,
) -> bool
    requires plane { HasPlane pool.now owner.now }
    requires room { count_of pool.now owner.now ≤ scratch.old.room }
    ensures touched { IsTrue result → HasTouched (block_at (tiles_of pool.now owner.now)) over.now scratch.new.tiles }
    ensures scratch_room { scratch.new.room ≡ scratch.old.room }
{
    if are_many(over.len(), pool.count(owner) as usize) {
        return false;
    }
    let Scratch {
        tiles: entries,
        entries: found,
        hints,
        ..
    } = scratch;
    let first = over.first().map_or(Rect::world(), |piece| piece.rect);
    let mut from = hints.start(pool, owner, first.corner());
    let mut steps = Steps::up_to(turns);
    entries.clear();
    let mut last = None;
    for piece in over {
        let rect = piece.rect;
        if !is_searched(&last, rect) {
            last = Some(rect);
            list_tiles(pool, owner, from, rect.grow(1), found, &mut steps);
            if steps.are_spent() {
                return false;
            }
            from = found.first().map_or(from, |tile| tile.id);
            free_room(entries, found.len());
            list_all(found, entries);
        }
    }
    true
}

/// Lists the tiles in the bounds of the pieces and next to them.
fn list_round_all(pool: &Pool, owner: &Owner, over: &[Piece], entries: &mut Vec<LaidTile>)
    requires plane { HasPlane pool.now owner.now }
    requires entries_fit { count_of pool.now owner.now ≤ vec_capacity entries.old }
    ensures touched { HasTouched (block_at (tiles_of pool.now owner.now)) over.now entries.new.items }
    ensures entries_room { vec_capacity entries.new ≡ vec_capacity entries.old }
{
    entries.clear();
    if let Some(bounds) = bounds_of_pieces(over) {
        scan_area(pool, owner, bounds.grow(1), entries);
    }
}

impl Plane {
    /// Finds tiles of the plane, each once, and among them all that one of the pieces touches, by a square, a side or a
    /// corner, and leaves them in the scratch.
    ///
    /// Searches once where the first piece has all others within it, and returns the area whose tiles are all found
    /// then. Else searches round each piece; and where that would take more than `turns`, or there are many pieces
    /// beside the plane's tiles, looks at each tile of the plane instead, and finds those in the bounds of all pieces
    /// and next to them. A search takes a turn for each tile that it goes through or looks at. With no turns, finds all
    /// tiles of the plane.
    pub fn touching(
        &self,
        pool: &Pool,
        over: &[Piece],
        turns: usize,
        scratch: &mut Scratch,
    ) -> Option<Rect>
        requires plane { HasPlane pool.now self.now }
        requires room { count_of pool.now self.now ≤ scratch.old.room }
        ensures touched { ListTouched (block_at (tiles_of pool.now self.now)) over.now scratch.new.tiles }
        ensures searched { AreSearched (block_at (tiles_of pool.now self.now)) result scratch.new.tiles }
        ensures few { length scratch.new.tiles ≤ count_of pool.now self.now }
        ensures scratch_room { scratch.new.room ≡ scratch.old.room }
    {
        if turns == 0 {
            self.strips_of(pool, scratch);
            return None;
        }
        if let Some(bounds) = enclosing(over) {
            let area = bounds.grow(1);
            let Scratch { hints, tiles, .. } = scratch;
            self.search(pool, bounds.corner(), area, hints, tiles);
            return Some(area);
        }
        if !list_round_each(pool, &self.owner, over, turns, scratch) {
            list_round_all(pool, &self.owner, over, &mut scratch.tiles);
        }
        sort_dedup(&mut scratch.tiles);
        let first = over.first().map_or(Rect::world(), |piece| piece.rect);
        scratch
            .hints
            .keep(&self.owner, first.corner(), scratch.tiles.first());
        None
    }
}
