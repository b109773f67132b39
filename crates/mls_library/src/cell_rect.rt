//! The rectangles of cell files.
use mls_geom::Piece;
use mls_kinds::PlaneNumber;

/// A rectangle of one type, and the type's plane.
#[derive(Clone, Copy, Debug, PartialEq, Eq)]
pub(crate) struct CellRect {
    pub plane: PlaneNumber,
    pub piece: Piece,
}
