//! Layouts by their squares.
use crate::Square;
use crate::frame::Frame;
use mls_geom::{Piece, Rect};
use mls_kinds::{Kind, PlaneNumber};
use std::alloc::{AllocError, Global};

/// The type of each square of a zone, on each plane. All other squares are space.
#[derive(Drop)]
pub struct Squares {
    frame: Frame,
    /// The types by the number of their square, for each plane.
    of_planes: Vec<Vec<Kind>>,
}

impl Squares {
    /// A zone of space on this many planes, numbered from 0.
    pub fn new(alloc: Global, zone: Rect, planes: usize) -> Result<Squares, AllocError> {
        let frame = Frame::new(zone);
        let mut of_planes = Vec::new(alloc);
        for _ in 0..planes {
            of_planes.push(vec![in alloc; Kind::SPACE; frame.len()]?)?;
        }
        Ok(Squares { frame, of_planes })
    }

    /// Paints pieces over a plane in turn, as far as they lie in the zone. Does nothing where there is no such plane.
    pub fn paint(&mut self, plane: PlaneNumber, pieces: &[Piece]) {
        for piece in pieces {
            self.paint_piece(plane, *piece);
        }
    }

    /// Gives the squares of a piece its type.
    fn paint_piece(&mut self, plane: PlaneNumber, piece: Piece) {
        let area = piece.rect.area();
        for row in area.bottom..area.top {
            for column in area.left..area.right {
                self.put(plane, Square { column, row }, piece.kind);
            }
        }
    }

    /// Gives one square of the zone a type.
    fn put(&mut self, plane: PlaneNumber, square: Square, kind: Kind) {
        let Some(number) = self.frame.number(square) else {
            return;
        };
        let Some(types) = self.of_planes.get_mut(plane.index()) else {
            return;
        };
        if let Some(place) = types.get_mut(number) {
            *place = kind;
        }
    }

    /// Returns the type of a square on a plane: space outside the zone and where there is no such plane.
    pub fn type_at(&self, plane: PlaneNumber, square: Square) -> Kind {
        match (self.of_planes.get(plane.index()), self.frame.number(square)) {
            (Some(types), Some(number)) => types.get(number).copied().unwrap_or(Kind::SPACE),
            _ => Kind::SPACE,
        }
    }
}
