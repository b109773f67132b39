//! Rectangles in two parts.
ghost use Rattle.std.specs.Prelude.{◌≡◌, ◌+◌, ◌<◌, ◌⊎◌};
ghost use Rattle.mls_layout.specs.Inner.{AreSmallerParts};

use mls_geom::Rect;

/// Returns the two parts of a rectangle that is wider or higher than a block: it is cut along a line of the other
/// rectangle that goes through it, or else across its longer side, in the middle.
pub(crate) fn cut(rect: Rect, other: Rect) -> (Rect, Rect)
    requires large { (rect.left + 512 < rect.right) ⊎ (rect.bottom + 512 < rect.top) }
    ensures { AreSmallerParts rect result.0 result.1 }
{
    let lines = rect.area();
    let edges = other.area();
    if lines.bottom < edges.bottom && edges.bottom < lines.top {
        at_row(rect, edges.bottom)
    } else if lines.bottom < edges.top && edges.top < lines.top {
        at_row(rect, edges.top)
    } else if lines.left < edges.left && edges.left < lines.right {
        at_column(rect, edges.left)
    } else if lines.left < edges.right && edges.right < lines.right {
        at_column(rect, edges.right)
    } else if lines.top - lines.bottom < lines.right - lines.left {
        at_column(rect, lines.left + (lines.right - lines.left) / 2)
    } else {
        at_row(rect, lines.bottom + (lines.top - lines.bottom) / 2)
    }
}

/// Returns the parts of a rectangle before a column line and after it.
fn at_column(rect: Rect, column: u32) -> (Rect, Rect)
    requires from { rect.left < column }
    requires to { column < rect.right }
    ensures { AreSmallerParts rect result.0 result.1 }
{
    let lines = rect.area();
    (
        Rect::between(lines.left, lines.bottom, column, lines.top),
        Rect::between(column, lines.bottom, lines.right, lines.top),
    )
}

/// Returns the parts of a rectangle below a row line and above it.
fn at_row(rect: Rect, row: u32) -> (Rect, Rect)
    requires from { rect.bottom < row }
    requires to { row < rect.top }
    ensures { AreSmallerParts rect result.0 result.1 }
{
    let lines = rect.area();
    (
        Rect::between(lines.left, lines.bottom, lines.right, row),
        Rect::between(lines.left, row, lines.right, lines.top),
    )
}
