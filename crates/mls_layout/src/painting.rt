//! Tiles that are painted on a grid.
ghost use Rattle.std.specs.Prelude.{◌≡◌, ℕ, true, if◌then◌else◌};
ghost use Rattle.mls_geom.specs.Pictures.{Picture};
ghost use Rattle.mls_geom.specs.Rects.{holds};
ghost use Rattle.mls_layout.specs.Grids.{IsBlock, grid_picture};
ghost use Rattle.mls_layout.specs.Inner.{ShowMoved, dumps};
ghost use Rattle.mls_layout.specs.Moves.{moved_picture};
ghost use Rattle.mls_layout.specs.Uses.{over};

use crate::KindGrid;
use crate::moves::moved_part;
use mls_geom::{Piece, Rect};
use mls_kinds::Kind;
use mls_stitch::LaidTile;

/// Paints the tiles that aren't space over a block of the grid, moved to the right by `dx` and up by `dy`.
pub(crate) fn paint_tiles(tiles: &[LaidTile], dx: i32, dy: i32, block: Rect, grid: &mut KindGrid)
    requires block { IsBlock block }
    ensures painted { (picture : Picture) → ShowMoved picture dx dy block tiles.now
        → (x y : ℕ) → holds block x y ≡ true
        → grid_picture grid.new block x y ≡ over (moved_picture picture dx dy) (grid_picture grid.old block) x y }
{
    for tile in tiles {
        paint_piece(&tile.piece, dx, dy, block, grid);
    }
}

/// Paints a piece that isn't space over a block of the grid, moved to the right by `dx` and up by `dy`.
fn paint_piece(piece: &Piece, dx: i32, dy: i32, block: Rect, grid: &mut KindGrid)
    requires block { IsBlock block }
    ensures painted { (x y : ℕ) → holds block x y ≡ true → grid_picture grid.new block x y
        ≡ (if dumps piece.now dx dy x y then piece.now.kind else grid_picture grid.old block x y) }
{
    if piece.kind == Kind::SPACE {
        return;
    }
    if let Some(rect) = moved_part(piece.rect, dx, dy, block) {
        let part = Piece {
            rect,
            kind: piece.kind,
        };
        grid.fill(block, &part);
    }
}
