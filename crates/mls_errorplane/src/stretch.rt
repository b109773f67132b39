//! Pieces of an area that are checked as one.
ghost use Rattle.std.specs.Prelude.{◌≡◌, ◌+◌, ◌*◌, ◌<◌, ◌≤◌, if◌then◌else◌, true, Some, None, List, ◌∷◌};
ghost use Rattle.mls_errorplane.specs.Common.{IsRectangleIn, Rect, has_squares, world};
ghost use Rattle.mls_errorplane.specs.DirtyLists.{piece_side};
ghost use Rattle.mls_errorplane.specs.Stretches.{IsNext};

use crate::dirty::PIECE_SIDE;
use mls_geom::{Area, Rect};

/// The next pieces of a list of areas, which together are a rectangle.
#[derive(Clone, Copy)]
pub(crate) struct Stretch {
    /// The squares of the pieces.
    pub rect: Rect,
    /// How many pieces there are.
    pub pieces: u64,
    /// What is left of the first area without them.
    pub rest: Option<Rect>,
}

impl Stretch {
    /// Returns the first pieces of an area: if it is no higher than a piece, this many of them, and else this many
    /// whole rows of them. If there are fewer, returns all.
    pub fn of(area: Rect, most: u32) -> Stretch
        requires { 1 ≤ most }
        ensures { (others : List Rect) → IsNext (area ∷ others) result }
    {
        let lines = area.area();
        if lines.top - lines.bottom <= PIECE_SIDE {
            Stretch::in_row(lines, most)
        } else {
            Stretch::of_rows(lines, most)
        }
    }

    /// Returns the first pieces of an area that is no higher than a piece, at most this many.
    fn in_row(area: Area, most: u32) -> Stretch
        requires some { 1 ≤ most }
        requires legal { IsRectangleIn world area }
        requires low { area.top ≤ area.bottom + piece_side }
        ensures { (others : List Rect) → IsNext (area ∷ others) result }
    {
        let pieces = pieces_along(area.right - area.left).min(most);
        let right = area.right.min(area.left + pieces * PIECE_SIDE);
        Stretch {
            rect: Rect::between(area.left, area.bottom, right, area.top),
            pieces: u64::from(pieces),
            rest: rect_of(area.columns_from(right)),
        }
    }

    /// Returns the first rows of pieces of an area, at most this many.
    fn of_rows(area: Area, most: u32) -> Stretch
        requires some { 1 ≤ most }
        requires legal { IsRectangleIn world area }
        ensures { (others : List Rect) → IsNext (area ∷ others) result }
    {
        let columns = pieces_along(area.right - area.left);
        let rows = pieces_along(area.top - area.bottom).min(most);
        let top = area.top.min(area.bottom + rows * PIECE_SIDE);
        Stretch {
            rect: Rect::between(area.left, area.bottom, area.right, top),
            pieces: u64::from(columns) * u64::from(rows),
            rest: rect_of(area.rows_from(top)),
        }
    }
}

/// Returns how many pieces lie one after another along this many squares.
fn pieces_along(squares: u32) -> u32
    ensures enough { squares ≤ piece_side * result }
    ensures few { piece_side * result < squares + piece_side }
{
    squares.div_ceil(PIECE_SIDE)
}

/// Returns an area as a rectangle, if it has squares.
fn rect_of(area: Area) -> Option<Rect>
    requires { has_squares area ≡ true → IsRectangleIn world area }
    ensures { result ≡ (if has_squares area then Some area else None) }
{
    if !area.has_squares() {
        return None;
    }
    Some(Rect::between(area.left, area.bottom, area.right, area.top))
}
