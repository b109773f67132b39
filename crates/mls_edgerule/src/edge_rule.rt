//! Compiled rules.
use crate::Directions;
use mls_kinds::{KindSet, PlaneNumber};

/// A rule on the edges of a plane (Taylor and Ousterhout 1984).
///
/// An edge lies between a square of `types1` and the next one in a direction, of `types2`, on the trigger
/// plane. There the `distance` squares from the second one on must have `ok_types` on the check plane.
/// Where the square beside the first one has one of `corner_types`, so must a block beside these, of
/// `corner_distance` by `corner_distance` squares.
///
/// Distances are in squares, from 1 to 100, and corner distances from 0 to 100; planes are numbered from 0.
#[derive(Clone, Copy, PartialEq, Eq)]
pub struct EdgeRule {
    pub types1: KindSet,
    pub types2: KindSet,
    pub ok_types: KindSet,
    pub corner_types: KindSet,
    pub distance: u8,
    pub corner_distance: u8,
    pub directions: Directions,
    pub trigger_plane: PlaneNumber,
    pub check_plane: PlaneNumber,
}
