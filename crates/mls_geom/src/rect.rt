//! Rectangles of squares of the world.
ghost use Rattle.std.specs.Prelude.{◌≡◌, ◌↔◌, ◌&&◌, ◌+ℤ◌, ℕ, IfNone, IfSome, IsTrue, false, pos};
ghost use Rattle.mls_geom.specs.Rects.{IsRectangleIn, IsWithin, clipped, common, grown, holds, joined, meets};
ghost use Rattle.mls_geom.specs.World.{origin, rect_of, world};

use crate::world::{HIGH, LOW, coordinate_of, is_outside, user_coordinate};
use crate::{Area, Point};
use std::marker::Model;
use thiserror::Error;

/// Why four coordinates make no rectangle of the world.
#[derive(Clone, Copy, Debug, PartialEq, Eq, Error)]
pub enum RectFault {
    /// The box has no square.
    #[error("empty box")]
    Empty,
    /// A side lies outside the world.
    #[error("outside the world")]
    Outside,
}

/// A rectangle of at least one square, inside the world.
#[derive(Clone, Copy, Debug, PartialEq, Eq)]
pub struct Rect {
    left: u32,
    bottom: u32,
    right: u32,
    top: u32,
}

impl Model for Rect {
    ghost use Rattle.mls_geom.specs.Rects.{Rect, IsRectangleIn};

    ghost Value = { Rect };

    ghost use Rattle.mls_geom.specs.World.{world};

    ghost view = { λ r. record { left = r.left; bottom = r.bottom; right = r.right; top = r.top } };

    ghost invariant = { λ r. IsRectangleIn world (record
        { left = r.left; bottom = r.bottom; right = r.right; top = r.top }) };

    ghost inverse = { λ e. record { left = e.left; bottom = e.bottom; right = e.right; top = e.top } };
}

impl Rect {
    /// Returns the rectangle between four of the user's coordinates, or the first fault: [`RectFault::Empty`],
    /// then [`RectFault::Outside`].
    #[tactic(auto, unfolding(crate::specs::World::rect_of))]
    pub fn new(left: i32, bottom: i32, right: i32, top: i32) -> Result<Rect, RectFault>
        ensures { result ≡ rect_of left bottom right top }
    {
        if right <= left || top <= bottom {
            return Err(RectFault::Empty);
        }
        if is_outside(left) || is_outside(bottom) || is_outside(right) || is_outside(top) {
            return Err(RectFault::Outside);
        }
        Ok(Rect {
            left: coordinate_of(left),
            bottom: coordinate_of(bottom),
            right: coordinate_of(right),
            top: coordinate_of(top),
        })
    }

    /// Returns all squares of the world.
    pub fn world() -> Rect
        ensures { result ≡ world }
    {
        Rect::between(LOW, LOW, HIGH, HIGH)
    }

    /// Returns the rectangle between four coordinates of the world, counted as those of [`Area`] are.
    pub fn between(left: u32, bottom: u32, right: u32, top: u32) -> Rect
        requires { IsRectangleIn world (record { left = left; bottom = bottom; right = right; top = top }) }
        ensures { result ≡ record { left = left; bottom = bottom; right = right; top = top } }
    {
        Rect {
            left,
            bottom,
            right,
            top,
        }
    }

    /// Returns the same squares as an area, whose coordinates can be read.
    pub fn area(self) -> Area
        ensures value { result ≡ self }
        ensures legal { IsRectangleIn world self }
    {
        Area {
            left: self.left,
            bottom: self.bottom,
            right: self.right,
            top: self.top,
        }
    }

    /// Returns the lower-left square.
    pub fn corner(self) -> Point
        ensures { result ≡ record { x = self.left; y = self.bottom } }
    {
        Point::at(self.left, self.bottom)
    }

    /// Returns whether the square lies in the rectangle.
    pub fn holds(self, at: Point) -> bool
        ensures { result ≡ holds self at.x at.y }
    {
        at.column() >= self.left
            && at.column() < self.right
            && at.row() >= self.bottom
            && at.row() < self.top
    }

    /// Returns whether some square lies in both rectangles.
    pub fn meets(self, other: Rect) -> bool
        ensures { result ≡ meets self other }
    {
        self.clip(other).is_some()
    }

    /// Returns the left side as users count it.
    pub fn left(self) -> i32
        ensures value { pos self.left ≡ result +ℤ pos origin }
        ensures legal { IsRectangleIn world self }
    {
        user_coordinate(self.left)
    }

    /// Returns the bottom side as users count it.
    pub fn bottom(self) -> i32
        ensures value { pos self.bottom ≡ result +ℤ pos origin }
        ensures legal { IsRectangleIn world self }
    {
        user_coordinate(self.bottom)
    }

    /// Returns the right side as users count it.
    pub fn right(self) -> i32
        ensures value { pos self.right ≡ result +ℤ pos origin }
        ensures legal { IsRectangleIn world self }
    {
        user_coordinate(self.right)
    }

    /// Returns the top side as users count it.
    pub fn top(self) -> i32
        ensures value { pos self.top ≡ result +ℤ pos origin }
        ensures legal { IsRectangleIn world self }
    {
        user_coordinate(self.top)
    }

    /// Returns the rectangle with this many more squares on each side, clipped to the world.
    pub fn grow(self, squares: u32) -> Rect
        ensures value { result ≡ common (grown squares self) world }
        ensures squares { (x y : ℕ)
            → holds result x y ≡ (holds (grown squares self) x y && holds world x y) }
    {
        Rect {
            left: self.left.saturating_sub(squares).max(LOW),
            bottom: self.bottom.saturating_sub(squares).max(LOW),
            right: self.right.saturating_add(squares).min(HIGH),
            top: self.top.saturating_add(squares).min(HIGH),
        }
    }

    /// Returns the squares that lie in both rectangles, or `None` if there are none. Rectangles that only
    /// touch share no square.
    pub fn clip(self, other: Rect) -> Option<Rect>
        ensures value { result ≡ clipped self other }
        ensures some { IfSome result
            (λ r. (x y : ℕ) → holds r x y ≡ (holds self x y && holds other x y)) }
        ensures none { IfNone result ((x y : ℕ) → (holds self x y && holds other x y) ≡ false) }
    {
        let left = self.left.max(other.left);
        let bottom = self.bottom.max(other.bottom);
        let right = self.right.min(other.right);
        let top = self.top.min(other.top);
        if left < right && bottom < top {
            Some(Rect::between(left, bottom, right, top))
        } else {
            None
        }
    }

    /// Returns whether no side of the other rectangle lies outside this one.
    pub fn encloses(self, other: Rect) -> bool
        ensures { IsTrue result ↔ IsWithin self other }
    {
        self.area().encloses(other.area())
    }

    /// Returns the smallest rectangle round both.
    pub fn joined(self, other: Rect) -> Rect
        ensures { result ≡ joined self other }
    {
        Rect {
            left: self.left.min(other.left),
            bottom: self.bottom.min(other.bottom),
            right: self.right.max(other.right),
            top: self.top.max(other.top),
        }
    }
}
