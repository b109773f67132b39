//! Moved rectangles, and where a cell lies that is moved.
ghost use Rattle.std.specs.Prelude.{◌≡◌};
ghost use Rattle.mls_session.specs.Bounds.{moved_rect};
ghost use Rattle.mls_session.specs.Inner.{placed_bounds};

use crate::Refusal;
use mls_geom::Rect;

/// Returns the rectangle moved to the right by `dx` and up by `dy`, if it stays in the world.
pub(crate) fn moved_rect(rect: Rect, dx: i32, dy: i32) -> Option<Rect>
    ensures { result ≡ moved_rect rect dx dy }
{
    // No line of the world is near the end of a number's range.
    let left = rect.left().saturating_add(dx);
    let bottom = rect.bottom().saturating_add(dy);
    let right = rect.right().saturating_add(dx);
    let top = rect.top().saturating_add(dy);
    Rect::new(left, bottom, right, top).ok()
}

/// Returns the bounds of a cell moved to the right by `dx` and up by `dy`, or none for a cell without paint.
///
/// Refuses bounds that leave the world.
pub(crate) fn placed_bounds(bounds: Option<Rect>, dx: i32, dy: i32) -> Result<Option<Rect>, Refusal>
    ensures { result ≡ placed_bounds bounds dx dy }
{
    let Some(bounds) = bounds else {
        return Ok(None);
    };
    match moved_rect(bounds, dx, dy) {
        Some(rect) => Ok(Some(rect)),
        None => Err(Refusal::CellOutside),
    }
}
