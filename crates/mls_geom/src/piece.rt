//! Painted rectangles.
ghost use Rattle.std.specs.Prelude.{◌≡◌, ◌<◌};
ghost use Rattle.mls_geom.specs.Locality.{uncovered};
ghost use Rattle.mls_geom.specs.Rects.{IsRectangleIn};
ghost use Rattle.mls_geom.specs.World.{world};

use crate::world::{HIGH, LOW};
use crate::{Area, Rect};
use mls_kinds::Kind;

/// A rectangle of squares of one kind. Kind 0 is space.
#[derive(Clone, Copy, Debug, PartialEq, Eq)]
pub struct Piece {
    pub rect: Rect,
    pub kind: Kind,
}

impl Piece {
    /// Returns the whole world as one piece of space.
    pub(crate) fn space() -> Piece
        ensures { result ≡ record { rect = world; kind = 0 } }
    {
        Piece {
            rect: Rect::between(LOW, LOW, HIGH, HIGH),
            kind: Kind::SPACE,
        }
    }

    /// Returns the squares of the piece as an area, whose coordinates can be read.
    pub(crate) fn area(self) -> Area
        ensures value { result ≡ self.rect }
        ensures legal { IsRectangleIn world self.rect }
        ensures kind { self.kind < uncovered }
    {
        self.rect.area()
    }
}
