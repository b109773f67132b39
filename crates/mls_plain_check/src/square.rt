//! Squares, and steps from one to another.
use mls_edgerule::Direction;
use mls_geom::Point;

/// A square, in the world or outside it. Columns and rows are counted as those of [`Point`] are.
#[derive(Clone, Copy, Debug, PartialEq, Eq)]
pub struct Square {
    pub column: u32,
    pub row: u32,
}

impl Square {
    /// Returns the square of a point.
    pub fn at(point: Point) -> Square {
        Square {
            column: point.column(),
            row: point.row(),
        }
    }

    /// Returns the square that lies some steps away in a direction.
    pub fn after(self, direction: Direction, steps: u32) -> Square {
        let Square { column, row } = self;
        let (column, row) = match direction {
            Direction::Right => (column.saturating_add(steps), row),
            Direction::Up => (column, row.saturating_add(steps)),
            Direction::Left => (column.saturating_sub(steps), row),
            Direction::Down => (column, row.saturating_sub(steps)),
        };
        Square { column, row }
    }

    /// Returns the square from which one step in a direction leads to this one.
    pub fn before(self, direction: Direction) -> Square {
        self.after(direction.back(), 1)
    }
}
