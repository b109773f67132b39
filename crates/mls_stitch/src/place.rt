//! Laying tiles that wait for their stitches.
ghost use Rattle.std.specs.Prelude.{◌≡◌, ◌≢◌, ◌+◌, ◌≤◌, [], IfSome, IsSome, length, vec_len, vec_capacity};
ghost use Rattle.std.specs.List.{All, AllPairs};
ghost use Rattle.mls_tilepool.specs.Pools.{IsOwner, count_of, room_of, tile_at, tiles_of};
ghost use Rattle.mls_stitch.specs.Placing.{GiveWay, Lays};
ghost use Rattle.mls_stitch.specs.Tilings.{ChangesOnly};

use crate::lookup::inside_only;
use crate::{LaidTile, Stitch};
use mls_geom::Piece;
use mls_tilepool::{Owner, Pool, Tile, TileId};

/// Adds a tile for each piece, and lists it.
pub(crate) fn place_all(
    pool: &mut Pool,
    owner: &Owner,
    pieces: &[Piece],
    entries: &mut Vec<LaidTile>,
)
    requires live { IsOwner pool.old owner.now }
    requires tiles_fit { IfSome (room_of pool.old owner.now)
        (λ room. count_of pool.old owner.now + length pieces.now ≤ room) }
    requires entries_fit { vec_len entries.old + length pieces.now ≤ vec_capacity entries.old }
    ensures laid { Lays (tiles_of pool.old owner.now)
        (tiles_of pool.new owner.now) [] pieces.now entries.old.items entries.new.items }
    ensures only { ChangesOnly pool.old pool.new owner.now }
    ensures room { vec_capacity entries.new ≡ vec_capacity entries.old }
{
    for piece in pieces {
        let tile = Tile {
            corner: piece.rect.corner(),
            kind: piece.kind,
            lb: None,
            bl: None,
            tr: None,
            rt: None,
        };
        let Ok(id) = pool.add(owner, tile) else {
            unreachable!();
        };
        entries.push_reserved(LaidTile { id, piece: *piece });
    }
}

/// Moves the tile under each key to the piece beside it, with those of its stitches that lead into the world from there,
/// and lists it.
fn place_again(
    pool: &mut Pool,
    owner: &Owner,
    ids: &[TileId],
    pieces: &[Piece],
    entries: &mut Vec<LaidTile>,
)
    requires there { All (λ key. IsSome (tile_at pool.old owner.now key)) ids.now }
    requires once { AllPairs (λ a b. a ≢ b) ids.now }
    requires same { length ids.now ≡ length pieces.now }
    requires entries_fit { vec_len entries.old + length pieces.now ≤ vec_capacity entries.old }
    ensures laid { Lays (tiles_of pool.old owner.now)
        (tiles_of pool.new owner.now) ids.now pieces.now entries.old.items entries.new.items }
    ensures only { ChangesOnly pool.old pool.new owner.now }
    ensures room { vec_capacity entries.new ≡ vec_capacity entries.old }
{
    for (id, piece) in ids.iter().zip(pieces) {
        let tile = pool.get(owner, *id).unwrap();
        let rect = piece.rect;
        let moved = Tile {
            corner: rect.corner(),
            kind: piece.kind,
            lb: inside_only(Stitch::Lb, rect, tile.lb),
            bl: inside_only(Stitch::Bl, rect, tile.bl),
            tr: inside_only(Stitch::Tr, rect, tile.tr),
            rt: inside_only(Stitch::Rt, rect, tile.rt),
        };
        pool.set(owner, *id, moved);
        entries.push_reserved(LaidTile {
            id: *id,
            piece: *piece,
        });
    }
}

/// Removes tiles.
fn remove_all(pool: &mut Pool, owner: &Owner, ids: &[TileId])
    requires there { All (λ key. IsSome (tile_at pool.old owner.now key)) ids.now }
    requires once { AllPairs (λ a b. a ≢ b) ids.now }
    ensures gone { GiveWay (tiles_of pool.old owner.now) (tiles_of pool.new owner.now) ids.now [] }
    ensures only { ChangesOnly pool.old pool.new owner.now }
{
    for id in ids {
        let _removed = pool.remove(owner, *id);
    }
}

/// Lays the pieces as tiles in place of the touched ones, which move to them as far as they go, and lists them.
pub(crate) fn place_instead(
    pool: &mut Pool,
    owner: &Owner,
    touched: &[TileId],
    fresh: &[Piece],
    entries: &mut Vec<LaidTile>,
)
    requires live { IsOwner pool.old owner.now }
    requires there { All (λ key. IsSome (tile_at pool.old owner.now key)) touched.now }
    requires once { AllPairs (λ a b. a ≢ b) touched.now }
    requires tiles_fit { IfSome (room_of pool.old owner.now)
        (λ room. count_of pool.old owner.now + length fresh.now ≤ room + length touched.now) }
    requires entries_fit { vec_len entries.old + length fresh.now ≤ vec_capacity entries.old }
    ensures laid { Lays (tiles_of pool.old owner.now)
        (tiles_of pool.new owner.now) touched.now fresh.now entries.old.items entries.new.items }
    ensures only { ChangesOnly pool.old pool.new owner.now }
    ensures room { vec_capacity entries.new ≡ vec_capacity entries.old }
{
    let shared = touched.len().min(fresh.len());
    let (again, surplus) = touched.split_at(shared);
    let (first, rest) = fresh.split_at(shared);
    place_again(pool, owner, again, first, entries);
    remove_all(pool, owner, surplus);
    place_all(pool, owner, rest, entries);
}
