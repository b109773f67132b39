//! The coordinates of the world.
ghost use Rattle.std.specs.Prelude.{◌≡◌, ◌≤◌, ◌+ℤ◌, pos, false};
ghost use Rattle.mls_geom.specs.World as spec;
ghost use Rattle.mls_geom.specs.World.{origin, world};

/// How many squares the world reaches from the user's 0 to each side.
const REACH: u32 = 1_048_576;

/// What users call 0. Coordinates are counted from a corner far outside the world, so that the squares
/// round the world have numbers too.
const ORIGIN: u32 = 4_194_304;

/// The least coordinate of the world, which users call -1048576.
pub(crate) const LOW: u32 = ORIGIN - REACH;

/// The greatest coordinate of the world, which users call 1048576.
pub(crate) const HIGH: u32 = ORIGIN + REACH;

/// Returns whether the user's coordinate lies outside the world.
#[tactic(auto, unfolding(crate::specs::World::is_outside))]
pub(crate) fn is_outside(coordinate: i32) -> bool
    ensures { result ≡ spec.is_outside coordinate }
{
    coordinate.unsigned_abs() > REACH
}

/// Returns the user's coordinate as it is counted here.
#[tactic(auto, unfolding(crate::specs::World::is_outside, crate::specs::World::coordinate_of))]
pub(crate) fn coordinate_of(coordinate: i32) -> u32
    requires { spec.is_outside coordinate ≡ false }
    ensures value { result ≡ spec.coordinate_of coordinate }
    ensures tied { pos result ≡ coordinate +ℤ pos origin }
    ensures low { world.left ≤ result }
    ensures high { result ≤ world.right }
{
    (ORIGIN as i32 + coordinate) as u32
}

/// Returns a coordinate as users count it.
pub(crate) fn user_coordinate(coordinate: u32) -> i32
    requires low { world.left ≤ coordinate }
    requires high { coordinate ≤ world.right }
    ensures { pos coordinate ≡ result +ℤ pos origin }
{
    coordinate as i32 - ORIGIN as i32
}
