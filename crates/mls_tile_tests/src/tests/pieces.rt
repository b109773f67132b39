//! Rectangles as tuples.
use mls_geom::{Piece, Rect, RectFault};
use mls_kinds::Kind;

/// Left, bottom, right and top.
pub type Sides = (i32, i32, i32, i32);

/// Returns a rectangle of squares of the kind of this number.
pub fn piece(kind: u8, sides: Sides) -> Result<Piece, RectFault> {
    let (left, bottom, right, top) = sides;
    let rect = Rect::new(left, bottom, right, top)?;
    let kind = Kind::new(kind);
    Ok(Piece { rect, kind })
}

/// Returns the sides of a rectangle.
pub fn sides_of(rect: Rect) -> Sides {
    (rect.left(), rect.bottom(), rect.right(), rect.top())
}
