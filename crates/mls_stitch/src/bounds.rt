//! The bounds of pieces and of tiles.
ghost use Rattle.std.specs.Prelude.{◌≡◌, [], IfNone, IfSome, IsSome};
ghost use Rattle.std.specs.List.{All};
ghost use Rattle.mls_tilepool.specs.Pools.{tile_at, tiles_of};
ghost use Rattle.mls_stitch.specs.Gathering.{EncloseBlocks, EnclosePieces};
ghost use Rattle.mls_stitch.specs.Tilings.{HasPlane, block_at};

use crate::laid_tile::laid;
use mls_geom::{Piece, Rect};
use mls_tilepool::{Owner, Pool, TileId};

/// Returns the bounds of the pieces, or `None` if there are none.
pub(crate) fn bounds_of_pieces(pieces: &[Piece]) -> Option<Rect>
    ensures round { IfSome result (λ bounds. EnclosePieces bounds pieces.now) }
    ensures none { IfNone result (pieces.now ≡ []) }
{
    let mut bounds = pieces.first()?.rect;
    for piece in pieces {
        bounds = bounds.joined(piece.rect);
    }
    Some(bounds)
}

/// Returns the bounds of the tiles, or `None` if there are none.
pub(crate) fn bounds_of_tiles(pool: &Pool, owner: &Owner, ids: &[TileId]) -> Option<Rect>
    requires plane { HasPlane pool.now owner.now }
    requires there { All (λ key. IsSome (tile_at pool.now owner.now key)) ids.now }
    ensures round { IfSome result (λ bounds. EncloseBlocks (block_at (tiles_of pool.now owner.now)) bounds ids.now) }
    ensures none { IfNone result (ids.now ≡ []) }
{
    let mut bounds = laid(pool, owner, *ids.first()?).unwrap().piece.rect;
    for id in ids {
        bounds = bounds.joined(laid(pool, owner, *id).unwrap().piece.rect);
    }
    Some(bounds)
}
