//! Which tile goes on as which strip where strips take the place of tiles.
ghost use Rattle.std.specs.Prelude.{◌≤◌, IsPermutation, length};

use mls_geom::{Piece, Rect};
use mls_stitch::LaidTile;
use std::cmp::{Ordering, Reverse};

/// The corner by which tiles and strips are matched.
#[derive(Clone, Copy)]
enum Anchor {
    LowerLeft,
    UpperRight,
}

impl Anchor {
    /// Returns the row and the column of this corner of the rectangle.
    fn of(self, rect: Rect) -> (u32, u32) {
        let area = rect.area();
        match self {
            Anchor::LowerLeft => (area.bottom, area.left),
            Anchor::UpperRight => (area.top, area.right),
        }
    }

    /// Returns whether a tile goes on as a strip that has the same corner. By the lower left corner, only where the
    /// strip has at least half of it, since otherwise the one at its upper right corner may have more.
    fn matches(self, tile: Rect, strip: Rect) -> bool {
        match self {
            Anchor::LowerLeft => extent(tile) / 2 <= common_extent(tile, strip),
            Anchor::UpperRight => true,
        }
    }
}

/// Returns the width and the height of the rectangle together.
fn extent(rect: Rect) -> u32 {
    let area = rect.area();
    (area.right - area.left) + (area.top - area.bottom)
}

/// Returns the width and the height together of what lies in both rectangles, and 0 where nothing does.
fn common_extent(rect: Rect, other: Rect) -> u32 {
    match rect.clip(other) {
        Some(common) => extent(common),
        None => 0,
    }
}

/// Leaves the first `paired` tiles and strips in place and puts those that match behind them, in the same order.
/// Returns how many are in pairs then.
fn pair_by(anchor: Anchor, mut paired: usize, tiles: &mut [LaidTile], strips: &mut [Piece]) -> usize
    ensures tiles { IsPermutation tiles.old tiles.new }
    ensures strips { IsPermutation strips.old strips.new }
{
    if tiles.len() <= paired || strips.len() <= paired {
        return paired;
    }
    tiles[paired..].sort_unstable_by_key(|tile| anchor.of(tile.piece.rect));
    strips[paired..].sort_unstable_by_key(|strip| anchor.of(strip.rect));
    let (mut tile, mut strip) = (paired, paired);
    'tiles: while tile < tiles.len() && strip < strips.len() {
        let (this, other) = (tiles[tile].piece.rect, strips[strip].rect);
        match anchor.of(this).cmp(&anchor.of(other)) {
            Ordering::Less => tile += 1,
            Ordering::Greater => strip += 1,
            Ordering::Equal => {
                if anchor.matches(this, other) {
                    tiles.swap(paired, tile);
                    strips.swap(paired, strip);
                    paired += 1;
                }
                tile += 1;
                strip += 1;
            }
        }
    }
    paired
}

/// Puts each tile where the strip stands that has much of it, so that the tile goes on as that strip: first the longest
/// tile with the strip that has the longest part of it, and then those with a common corner.
pub(crate) fn pair_up(tiles: &mut [LaidTile], strips: &mut [Piece])
    ensures tiles { IsPermutation tiles.old tiles.new }
    ensures strips { IsPermutation strips.old strips.new }
{
    // Of equally long ones the first.
    let by_length = tiles.iter().enumerate();
    let Some((tile, longest)) = by_length.min_by_key(|(_, tile)| Reverse(extent(tile.piece.rect)))
    else {
        return;
    };
    let rect = longest.piece.rect;
    let by_part = strips.iter().enumerate();
    let Some((strip, _)) = by_part.min_by_key(|(_, strip)| Reverse(common_extent(rect, strip.rect)))
    else {
        return;
    };
    tiles.swap(0, tile);
    strips.swap(0, strip);
    let paired = pair_by(Anchor::LowerLeft, 1, tiles, strips);
    pair_by(Anchor::UpperRight, paired, tiles, strips);
}
