//! Squares between four coordinates, in the world or outside it.
ghost use Rattle.std.specs.Prelude.{◌≡◌, ◌<◌, ◌≤◌, ◌↔◌, IsTrue};
ghost use Rattle.mls_geom.specs.Directions as spec;
ghost use Rattle.mls_geom.specs.Directions.{front_of, inner_area};
ghost use Rattle.mls_geom.specs.Rects.{FitsWith, IsWithin, after_part, common, grown, has_squares, holds, joined, size_of};
ghost use Rattle.mls_geom.specs.World.{IsNearWorld};

use crate::{Direction, Rect};
use std::marker::Model;

/// The squares between four coordinates, which may lie outside the world.
///
/// Coordinates are counted from a corner far outside the world, as those of [`Point`](crate::Point)
/// are. Where `left` is not below `right`, or `bottom` not below `top`, the area has no square.
#[derive(Clone, Copy, Debug, PartialEq, Eq)]
pub struct Area {
    pub left: u32,
    pub bottom: u32,
    pub right: u32,
    pub top: u32,
}

impl Model for Area {
    ghost use Rattle.mls_geom.specs.Rects.{Rect};

    ghost Value = { Rect };

    ghost view = { λ a. record { left = a.left; bottom = a.bottom; right = a.right; top = a.top } };

    ghost inverse = { λ e. record { left = e.left; bottom = e.bottom; right = e.right; top = e.top } };
}

impl Area {
    /// Returns the rectangle with this many more squares on each side, whether the world has them or not.
    pub fn around(rect: Rect, squares: u32) -> Area
        requires { squares ≤ 256 }
        ensures value { result ≡ grown squares rect }
        ensures near { IsNearWorld result }
    {
        let area = rect.area();
        Area {
            left: area.left - squares,
            bottom: area.bottom - squares,
            right: area.right + squares,
            top: area.top + squares,
        }
    }

    /// Returns an area without squares, which joined with another area is that one.
    pub(crate) fn nowhere() -> Area
        ensures { result.right < result.left }
    {
        Area {
            left: u32::MAX,
            bottom: u32::MAX,
            right: 0,
            top: 0,
        }
    }

    /// Returns whether the area has a square.
    pub fn has_squares(self) -> bool
        ensures { result ≡ has_squares self }
    {
        self.left < self.right && self.bottom < self.top
    }

    /// Returns how many squares the area has.
    pub fn size(self) -> u64
        ensures { result ≡ size_of self }
    {
        u64::from(self.right.saturating_sub(self.left))
            * u64::from(self.top.saturating_sub(self.bottom))
    }

    /// Returns whether the square at a column and a row lies in the area.
    pub fn holds(self, column: u32, row: u32) -> bool
        ensures { result ≡ holds self column row }
    {
        self.left <= column && column < self.right && self.bottom <= row && row < self.top
    }

    /// Returns whether no side of the other area lies outside this one.
    pub fn encloses(self, other: Area) -> bool
        ensures { IsTrue result ↔ IsWithin self other }
    {
        self.left <= other.left
            && self.bottom <= other.bottom
            && other.right <= self.right
            && other.top <= self.top
    }

    /// Returns the squares that lie in both areas.
    pub fn common(self, other: Area) -> Area
        ensures { result ≡ common self other }
    {
        Area {
            left: self.left.max(other.left),
            bottom: self.bottom.max(other.bottom),
            right: self.right.min(other.right),
            top: self.top.min(other.top),
        }
    }

    /// Returns the least area that has the squares of both.
    pub fn joined(self, other: Area) -> Area
        ensures { result ≡ joined self other }
    {
        Area {
            left: self.left.min(other.left),
            bottom: self.bottom.min(other.bottom),
            right: self.right.max(other.right),
            top: self.top.max(other.top),
        }
    }

    /// Returns the squares of the area from a column on.
    pub fn columns_from(self, left: u32) -> Area
        ensures { result ≡ record self { left = left } }
    {
        Area { left, ..self }
    }

    /// Returns the squares of the area from a row on.
    pub fn rows_from(self, bottom: u32) -> Area
        ensures { result ≡ record self { bottom = bottom } }
    {
        Area { bottom, ..self }
    }

    /// Returns what is left of an area that is one square wide or one square high after the part at its lower left.
    pub fn after_part(self, part: Area) -> Area
        ensures { result ≡ after_part self part }
    {
        if part.top == self.top {
            self.columns_from(part.right)
        } else {
            self.rows_from(part.top)
        }
    }

    /// Returns the area some squares on in a direction. Coordinates don't go below 0.
    pub fn shifted(self, direction: Direction, squares: u32) -> Area
        requires { FitsWith squares self }
        ensures { result ≡ spec.shifted direction squares self }
    {
        match direction {
            Direction::Right => Area {
                left: self.left + squares,
                right: self.right + squares,
                ..self
            },
            Direction::Up => Area {
                bottom: self.bottom + squares,
                top: self.top + squares,
                ..self
            },
            Direction::Left => Area {
                left: self.left.saturating_sub(squares),
                right: self.right.saturating_sub(squares),
                ..self
            },
            Direction::Down => Area {
                bottom: self.bottom.saturating_sub(squares),
                top: self.top.saturating_sub(squares),
                ..self
            },
        }
    }

    /// Returns the area with some squares more in a direction. Coordinates don't go below 0.
    pub fn deepened(self, direction: Direction, squares: u32) -> Area
        requires { FitsWith squares self }
        ensures { result ≡ spec.deepened direction squares self }
    {
        match direction {
            Direction::Right => Area {
                right: self.right + squares,
                ..self
            },
            Direction::Up => Area {
                top: self.top + squares,
                ..self
            },
            Direction::Left => Area {
                left: self.left.saturating_sub(squares),
                ..self
            },
            Direction::Down => Area {
                bottom: self.bottom.saturating_sub(squares),
                ..self
            },
        }
    }

    /// Returns the squares of the area that have the square before them, in a direction, in the area too.
    pub fn inner(self, direction: Direction) -> Area
        requires { FitsWith 1 self }
        ensures { result ≡ inner_area direction self }
    {
        self.shifted(direction, 1).common(self)
    }

    /// Returns the squares just before the area in a direction.
    pub fn front(self, direction: Direction) -> Area
        requires { FitsWith 1 self }
        ensures { result ≡ front_of direction self }
    {
        match direction {
            Direction::Right => Area {
                left: self.left.saturating_sub(1),
                right: self.left,
                ..self
            },
            Direction::Up => Area {
                bottom: self.bottom.saturating_sub(1),
                top: self.bottom,
                ..self
            },
            Direction::Left => Area {
                left: self.right,
                right: self.right + 1,
                ..self
            },
            Direction::Down => Area {
                bottom: self.top,
                top: self.top + 1,
                ..self
            },
        }
    }
}
