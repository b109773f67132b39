//! The four directions.
ghost use Rattle.std.specs.Prelude.{◌≡◌};
ghost use Rattle.mls_geom.specs.Directions as spec;

/// A direction in which squares follow one another.
#[derive(Clone, Copy, Debug, PartialEq, Eq)]
pub enum Direction {
    Right,
    Up,
    Left,
    Down,
}

impl Direction {
    /// Returns the two directions at right angles.
    pub fn across(self) -> &'static [Direction]
        ensures { result.now ≡ spec.across self }
    {
        match self {
            Direction::Right | Direction::Left => &[Direction::Up, Direction::Down],
            Direction::Up | Direction::Down => &[Direction::Right, Direction::Left],
        }
    }

    /// Returns the opposite direction.
    pub fn back(self) -> Direction
        ensures { result ≡ spec.back self }
    {
        match self {
            Direction::Right => Direction::Left,
            Direction::Up => Direction::Down,
            Direction::Left => Direction::Right,
            Direction::Down => Direction::Up,
        }
    }

    /// Returns the one of a direction and its opposite in which coordinates grow.
    pub fn axis(self) -> Direction
        ensures { result ≡ spec.axis self }
    {
        match self {
            Direction::Right | Direction::Left => Direction::Right,
            Direction::Up | Direction::Down => Direction::Up,
        }
    }
}
