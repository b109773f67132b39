//! Rectangles that are moved.
ghost use Rattle.std.specs.Prelude.{◌≡◌, ◌≤◌, ◌<◌, ◌+ℤ◌, ℕ, None, Some, if◌then◌else◌, int_le, nat_le, pos};
ghost use Rattle.mls_geom.specs.Rects.{IsWithin, has_squares};
ghost use Rattle.mls_geom.specs.World.{world};
ghost use Rattle.mls_layout.specs.Moves.{IsMove, IsPartOf, is_moved, moves_into};

use mls_geom::{Area, Rect};

/// Returns the squares of the rectangle, moved to the right by `dx` and up by `dy`, that lie in the extent, if any do.
pub(crate) fn moved_part(rect: Rect, dx: i32, dy: i32, extent: Rect) -> Option<Rect>
    ensures { IsPartOf extent (is_moved rect dx dy) result }
{
    part_moved_by(rect, dx as i64, dy as i64, extent)
}

/// Returns the squares of the extent that lie in the rectangle once they are moved to the right by `dx` and up by `dy`,
/// if there are any.
pub(crate) fn part_moved_into(rect: Rect, dx: i32, dy: i32, extent: Rect) -> Option<Rect>
    ensures { IsPartOf extent (moves_into rect dx dy) result }
{
    part_moved_by(rect, -(dx as i64), -(dy as i64), extent)
}

/// Returns the squares of the rectangle, moved by a move or the opposite of one, that lie in the extent, if any do.
fn part_moved_by(rect: Rect, dx: i64, dy: i64, extent: Rect) -> Option<Rect>
    requires along { IsMove dx }
    requires up { IsMove dy }
    ensures { IsPartOf extent (is_moved rect dx dy) result }
{
    let lines = rect.area();
    let around = extent.area();
    some_rect(Area {
        left: moved_line(lines.left, dx, around.left, around.right),
        bottom: moved_line(lines.bottom, dy, around.bottom, around.top),
        right: moved_line(lines.right, dx, around.left, around.right),
        top: moved_line(lines.top, dy, around.bottom, around.top),
    })
}

/// Returns the rectangle between these lines of the world, if it has a square.
fn some_rect(lines: Area) -> Option<Rect>
    requires { IsWithin world lines }
    ensures { result ≡ (if has_squares lines then Some lines else None) }
{
    if lines.has_squares() {
        Some(Rect::between(lines.left, lines.bottom, lines.right, lines.top))
    } else {
        None
    }
}

/// Returns the line moved by this many squares, and no farther than to the lines `low` and `high`.
fn moved_line(line: u32, by: i64, low: u32, high: u32) -> u32
    requires moves { IsMove by }
    requires ordered { low ≤ high }
    ensures from { low ≤ result }
    ensures to { result ≤ high }
    ensures squares { (x : ℕ) → low ≤ x → x < high → nat_le result x ≡ int_le (pos line +ℤ by) (pos x) }
{
    let moved = line as i64 + by;
    if moved < low as i64 {
        low
    } else if moved > high as i64 {
        high
    } else {
        moved as u32
    }
}
