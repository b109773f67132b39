//! Looking up the tiles beyond another.
ghost use Rattle.std.specs.Prelude.{◌≡◌};
ghost use Rattle.mls_geom.specs.Rects.{holds};
ghost use Rattle.mls_stitch.specs.Placing.{inside_only};
ghost use Rattle.mls_stitch.specs.Lookups.{BeginUpTo, AreSortedFor, place_of, rank_of, start_of};
ghost use Rattle.mls_stitch.specs.Stitches.{beyond};

use crate::{LaidTile, Stitch};
use mls_geom::Rect;
use mls_tilepool::TileId;

/// How many steps a search near another place takes before it looks at all.
const MOST_STEPS: usize = 8;

/// Returns the column and the row of the square to which the stitch of a tile over the rectangle leads. It may lie next
/// to the world.
fn beyond(stitch: Stitch, rect: Rect) -> (u32, u32)
    ensures { result ≡ ((beyond stitch rect).x, (beyond stitch rect).y) }
{
    let area = rect.area();
    match stitch {
        Stitch::Lb => (area.left, area.bottom - 1),
        Stitch::Bl => (area.left - 1, area.bottom),
        Stitch::Tr => (area.right, area.top - 1),
        Stitch::Rt => (area.right - 1, area.top),
    }
}

/// Returns whether the stitch of a tile over the rectangle leads to a square of the other one.
pub(crate) fn leads_into(stitch: Stitch, rect: Rect, other: Rect) -> bool
    ensures { result ≡ holds other (beyond stitch rect).x (beyond stitch rect).y }
{
    let (column, row) = beyond(stitch, rect);
    let area = other.area();
    column >= area.left && column < area.right && row >= area.bottom && row < area.top
}

/// Returns the stitch of a tile over the rectangle, if its square lies in the world.
pub(crate) fn inside_only(stitch: Stitch, rect: Rect, to: Option<TileId>) -> Option<TileId>
    ensures { result ≡ inside_only (beyond stitch rect) to }
{
    if leads_into(stitch, rect, Rect::world()) {
        to
    } else {
        None
    }
}

/// Returns the place of the square as a number: by its line, as the stitch sees lines, and then along the line. The
/// stitches that lead down or to the left count both from the other end.
fn rank(stitch: Stitch, column: u32, row: u32) -> u64
    ensures { result ≡ rank_of (place_of stitch (record { x = column; y = row })) }
{
    let (line, along) = match stitch {
        Stitch::Lb => (u32::MAX - row, u32::MAX - column),
        Stitch::Bl => (u32::MAX - column, u32::MAX - row),
        Stitch::Tr => (column, row),
        Stitch::Rt => (row, column),
    };
    u64::from(line) * (1 << 32) + u64::from(along)
}

/// Returns where the tile begins for the tiles whose stitch leads to it: its first square on the line that it turns to
/// them.
pub(crate) fn start(stitch: Stitch, entry: &LaidTile) -> u64
    ensures { result ≡ rank_of (start_of stitch entry.now.piece.rect) }
{
    let area = entry.piece.rect.area();
    match stitch {
        Stitch::Lb | Stitch::Bl => rank(stitch, area.right - 1, area.top - 1),
        Stitch::Tr | Stitch::Rt => rank(stitch, area.left, area.bottom),
    }
}

/// Returns how many of the tiles begin at the square beyond `tile` or before it. Looks first for a few steps from `near`
/// on.
pub(crate) fn count_beyond(
    entries: &[LaidTile],
    stitch: Stitch,
    tile: &LaidTile,
    near: usize,
) -> usize
    requires { AreSortedFor stitch entries.now }
    ensures { BeginUpTo stitch tile.now.piece.rect entries.now result }
{
    let (column, row) = beyond(stitch, tile.piece.rect);
    let place = rank(stitch, column, row);
    let mut count = near.min(entries.len());
    for _ in 0..MOST_STEPS {
        if count < entries.len() && start(stitch, &entries[count]) <= place {
            count += 1;
        } else if count > 0 && start(stitch, &entries[count - 1]) > place {
            count -= 1;
        } else {
            return count;
        }
    }
    entries.partition_point(|entry| start(stitch, entry) <= place)
}
