//! What is left of a rectangle beside another one inside it.
ghost use Rattle.std.specs.Prelude.{◌≡◌, false, if◌then◌else◌, IfSome, IsTrue, Some, None};
ghost use Rattle.mls_geom.specs.Rects.{Point, IsWithin, has_squares, holds};
ghost use Rattle.mls_geom.specs.World.{world};
ghost use Rattle.mls_stitch.specs.Gathering.{IsInPart};

use mls_geom::{Area, Rect};

/// Returns the area as a rectangle, or `None` if it has no square.
fn part_of(area: Area) -> Option<Rect>
    requires { IsWithin world area }
    ensures { result ≡ (if has_squares area then Some area else None) }
{
    area.has_squares().then(|| Rect::between(area.left, area.bottom, area.right, area.top))
}

/// Returns the parts of the rectangle below the inner one, above it, to the left and to the right, where it has
/// squares there.
fn parts_beside(whole: Rect, inner: Rect) -> [Option<Rect>; 4]
    requires { IsWithin whole inner }
    ensures { (at : Point) → IsTrue (holds whole at.x at.y) → holds inner at.x at.y ≡ false → IsInPart result at }
{
    let (whole, inner) = (whole.area(), inner.area());
    let middle = Area {
        left: whole.left,
        bottom: inner.bottom,
        right: whole.right,
        top: inner.top,
    };
    [
        part_of(Area {
            top: inner.bottom,
            ..whole
        }),
        part_of(Area {
            bottom: inner.top,
            ..whole
        }),
        part_of(Area {
            right: inner.left,
            ..middle
        }),
        part_of(Area {
            left: inner.right,
            ..middle
        }),
    ]
}

/// Returns the parts of the rectangle outside another one, or all of it where the two have no common square or there
/// is no other one.
pub(crate) fn parts_lost(whole: Rect, other: Option<Rect>) -> [Option<Rect>; 4]
    ensures { (at : Point) → IsTrue (holds whole at.x at.y) → IfSome other (λ rect. holds rect at.x at.y ≡ false)
        → IsInPart result at }
{
    match other.and_then(|other| whole.clip(other)) {
        Some(inner) => parts_beside(whole, inner),
        None => [Some(whole), None, None, None],
    }
}
