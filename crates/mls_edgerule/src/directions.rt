//! The directions in which edge rules look.
ghost use Rattle.std.specs.Prelude.{◌≡◌};
ghost use Rattle.mls_edgerule.specs.Directions as spec;

use mls_geom::Direction;

/// The directions in which a rule is checked: across an edge, from its first side to its second.
#[derive(Clone, Copy, PartialEq, Eq)]
pub enum Directions {
    RightAndUp,
    Four,
}

impl Directions {
    /// The directions one by one.
    pub fn list(self) -> &'static [Direction]
        ensures { result.now ≡ spec.directions_in self }
    {
        match self {
            Directions::RightAndUp => &[Direction::Right, Direction::Up],
            Directions::Four => &[
                Direction::Right,
                Direction::Up,
                Direction::Left,
                Direction::Down,
            ],
        }
    }
}
