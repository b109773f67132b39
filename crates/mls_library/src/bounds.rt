//! The smallest rectangle round what planes show.
ghost use Rattle.std.specs.Prelude.{◌≡◌, map};
ghost use Rattle.mls_library.specs.Bounds.{any_painted, are_painted, bounds_of, round_both};

use mls_geom::{Piece, Rect};
use mls_kinds::Kind;

/// Returns the smallest rectangle round all strips that aren't space, or `None` if there are none.
pub(crate) fn bounds_of(planes: &[Vec<Piece>]) -> Option<Rect>
    ensures { result ≡ bounds_of (any_painted (map (λ strips. strips.items) planes.now)) }
{
    let mut bounds = None;
    for strips in planes {
        bounds = round_both(bounds, strips_bounds(strips));
    }
    bounds
}

/// Returns the smallest rectangle round the strips that aren't space, or `None` if there are none.
fn strips_bounds(strips: &[Piece]) -> Option<Rect>
    ensures { result ≡ bounds_of (are_painted strips.now) }
{
    let mut bounds = None;
    for strip in strips {
        if strip.kind != Kind::SPACE {
            // For its contract alone: the rectangle lies in the world.
            strip.rect.area();
            bounds = round_both(bounds, Some(strip.rect));
        }
    }
    bounds
}

/// Returns the smallest rectangle round both, or the only one, or none.
fn round_both(one: Option<Rect>, other: Option<Rect>) -> Option<Rect>
    ensures { result ≡ round_both one other }
{
    let Some(first) = one else {
        return other;
    };
    let Some(second) = other else {
        return one;
    };
    Some(first.joined(second))
}
