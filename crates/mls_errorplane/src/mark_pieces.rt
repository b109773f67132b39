//! The pieces that paint marks on an error plane.
ghost use Rattle.std.specs.Prelude.{◌≡◌, ◌+◌, ◌<◌, ◌≤◌, ◌||◌, length, vec_capacity};
ghost use Rattle.mls_errorplane.specs.Common.{IsRectangleIn, SquareSet, holds, marks, no_squares, squares_of, world};
ghost use Rattle.mls_errorplane.specs.MarkPlanes.{most_pieces};
ghost use Rattle.mls_errorplane.specs.PaintedMarks.{Paints};

use crate::dirty::lies_in_world;
use mls_checker::Marks;
use mls_geom::{Area, Piece, Rect};
use mls_kinds::Kind;

/// The number of the kind of marked squares.
pub(crate) const MARKED: u8 = 1;

/// Fills `pieces` with those that give the marked squares of a rectangle kind 1, and its other squares kind 0: one for
/// the rectangle, and one for each area of the marks that has squares of it.
pub(crate) fn list_pieces(found: &Marks, rect: Rect, pieces: &mut Vec<Piece>)
    requires { most_pieces found.now.rect ≤ vec_capacity pieces.old }
    ensures painted { Paints pieces.new.items rect (marks found.now) }
    ensures few { length pieces.new.items ≤ most_pieces found.now.rect }
    ensures room { vec_capacity pieces.new ≡ vec_capacity pieces.old }
{
    // What the areas have of the rectangle lies in the world, too.
    lies_in_world(rect);
    pieces.clear();
    pieces.push_reserved(Piece {
        rect,
        kind: Kind::SPACE,
    });
    list_areas(rect, found.areas(), pieces);
}

/// Adds a piece for each area that has squares of the part.
fn list_areas(part: Rect, areas: &[Area], pieces: &mut Vec<Piece>)
    requires legal { IsRectangleIn world part }
    requires fits { length pieces.old.items + length areas.now ≤ vec_capacity pieces.old }
    requires painted { Paints pieces.old.items part no_squares }
    ensures painted { Paints pieces.new.items part (squares_of areas.now) }
    ensures few { length pieces.new.items ≤ length pieces.old.items + length areas.now }
    ensures room { vec_capacity pieces.new ≡ vec_capacity pieces.old }
{
    for area in areas {
        push_part(part, *area, pieces);
    }
}

/// Adds a piece for the squares that an area has of the part, if there are any.
fn push_part(part: Rect, area: Area, pieces: &mut Vec<Piece>)
    requires legal { IsRectangleIn world part }
    requires fits { length pieces.old.items < vec_capacity pieces.old }
    ensures painted { (set : SquareSet) → Paints pieces.old.items part set
        → Paints pieces.new.items part (λ x y. set x y || holds area x y) }
    ensures few { length pieces.new.items ≤ length pieces.old.items + 1 }
    ensures room { vec_capacity pieces.new ≡ vec_capacity pieces.old }
{
    let common = area.common(part.area());
    if !common.has_squares() {
        return;
    }
    let rect = Rect::between(common.left, common.bottom, common.right, common.top);
    pieces.push_reserved(Piece {
        rect,
        kind: Kind::new(MARKED),
    });
}
