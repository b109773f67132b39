//! Cells of a library.
ghost use Rattle.std.specs.Prelude.{◌≡◌};

use mls_geom::Rect;
use mls_stitch::Plane;
use std::marker::Model;

/// A cell of a library: its planes, which can be read, and never change.
#[derive(Drop)]
pub struct Cell {
    planes: Vec<Plane>,
    bounds: Option<Rect>,
}

impl Model for Cell {
    ghost use Rattle.mls_library.specs.Libraries.{Cell};

    // The owners' numbers, and the bounds.
    ghost Value = { Cell };

    ghost view = { λ cell. record { planes = cell.planes.items; bounds = cell.bounds } };
}

impl Cell {
    /// Creates a cell of these planes, the first of which is plane 0, that show nothing outside the bounds.
    pub(crate) fn new(planes: Vec<Plane>, bounds: Option<Rect>) -> Cell
        ensures { result ≡ record { planes = planes.items; bounds = bounds } }
    {
        Cell { planes, bounds }
    }

    /// Returns the planes, the first of which is plane 0.
    pub fn planes(&self) -> &[Plane]
        ensures { result.now ≡ self.now.planes }
    {
        self.planes.as_slice()
    }

    /// Returns the rectangle round all squares that aren't space on some plane, or `None` if there are none.
    pub fn bounds(&self) -> Option<Rect>
        ensures { result ≡ self.now.bounds }
    {
        self.bounds
    }
}
