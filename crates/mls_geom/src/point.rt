//! Squares of the world.
ghost use Rattle.std.specs.Prelude.{◌≡◌, IsTrue};
ghost use Rattle.mls_geom.specs.Rects.{holds};
ghost use Rattle.mls_geom.specs.World.{square_of, world};

use crate::world::{HIGH, coordinate_of, is_outside};
use std::marker::Model;

/// A square of the world, by its lower-left corner.
#[derive(Clone, Copy, Debug, PartialEq, Eq)]
pub struct Point {
    x: u32,
    y: u32,
}

impl Model for Point {
    ghost use Rattle.std.specs.Prelude.{IsTrue};
    ghost use Rattle.mls_geom.specs.Rects.{Point, holds};

    ghost Value = { Point };

    ghost use Rattle.mls_geom.specs.World.{world};

    ghost view = { λ p. record { x = p.x; y = p.y } };

    ghost invariant = { λ p. IsTrue (holds world p.x p.y) };

    ghost inverse = { λ s. record { x = s.x; y = s.y } };
}

impl Point {
    /// Returns the square whose lower-left corner has these coordinates of the user's, or `None` if the
    /// world has no such square.
    #[tactic(auto, unfolding(crate::specs::World::square_of))]
    pub fn new(x: i32, y: i32) -> Option<Point>
        ensures { result ≡ square_of x y }
    {
        if is_outside(x) || is_outside(y) {
            return None;
        }
        let (x, y) = (coordinate_of(x), coordinate_of(y));
        if x < HIGH && y < HIGH {
            Some(Point { x, y })
        } else {
            None
        }
    }

    /// Returns the square of the world at this column and row.
    pub fn at(column: u32, row: u32) -> Point
        requires { IsTrue (holds world column row) }
        ensures { result ≡ record { x = column; y = row } }
    {
        Point { x: column, y: row }
    }

    /// Returns the column, counted from a corner far outside the world.
    pub fn column(self) -> u32
        ensures { result ≡ self.x }
    {
        self.x
    }

    /// Returns the row, counted from a corner far outside the world.
    pub fn row(self) -> u32
        ensures { result ≡ self.y }
    {
        self.y
    }
}
