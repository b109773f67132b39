//! Looking at each tile of an owner.
ghost use Rattle.std.specs.Prelude.{◌≡◌, ◌≤◌, Some, false, MatchOption, vec_len, vec_capacity};
ghost use Rattle.mls_geom.specs.Rects.{meets};
ghost use Rattle.mls_geom.specs.declared.piece.Piece.{Piece};
ghost use Rattle.mls_tilepool.specs.Pools.{count_of, tiles_of};
ghost use Rattle.mls_stitch.specs.Areas.{IsFound};
ghost use Rattle.mls_stitch.specs.Gathering.{AreMet};
ghost use Rattle.mls_stitch.specs.Tilings.{HasPlane, block_at};

use crate::LaidTile;
use crate::laid_tile::laid;
use mls_geom::Rect;
use mls_tilepool::{Owner, Pool, TileId};

/// Returns the tile under the name, if it has a square of the area.
fn laid_in(pool: &Pool, owner: &Owner, id: TileId, area: Rect) -> Option<LaidTile>
    requires { HasPlane pool.now owner.now }
    ensures { MatchOption result ((block : Piece) → block_at (tiles_of pool.now owner.now) id ≡ Some block
        → meets block.rect area ≡ false)
        (λ tile. (tile.id ≡ id) × IsFound (block_at (tiles_of pool.now owner.now)) area tile) }
{
    let tile = laid(pool, owner, id)?;
    if tile.meets(area) { Some(tile) } else { None }
}

/// Fills `list` with the tiles that have a square of the area, in any order, by a look at each tile of the owner.
pub(crate) fn scan_area(pool: &Pool, owner: &Owner, area: Rect, list: &mut Vec<LaidTile>)
    requires plane { HasPlane pool.now owner.now }
    requires room { count_of pool.now owner.now ≤ vec_capacity list.old }
    ensures found { AreMet (block_at (tiles_of pool.now owner.now)) area list.new.items }
    ensures few { vec_len list.new ≤ count_of pool.now owner.now }
    ensures room { vec_capacity list.new ≡ vec_capacity list.old }
{
    list.clear();
    for (id, _) in pool.tiles(owner) {
        if let Some(tile) = laid_in(pool, owner, id, area) {
            list.push_reserved(tile);
        }
    }
}
