//! Where the squares of a rectangle stand in a list.
use crate::Square;
use mls_geom::Rect;

/// Numbers the squares of a rectangle from 0: row by row from the bottom, each row from the left.
#[derive(Clone, Copy)]
pub(crate) struct Frame {
    left: u32,
    bottom: u32,
    width: u32,
    height: u32,
}

impl Frame {
    /// Numbers the squares of a rectangle.
    pub fn new(rect: Rect) -> Frame {
        let area = rect.area();
        Frame {
            left: area.left,
            bottom: area.bottom,
            width: area.right - area.left,
            height: area.top - area.bottom,
        }
    }

    /// Returns how many squares there are.
    pub fn len(self) -> usize {
        self.width as usize * self.height as usize
    }

    /// Returns the number of a square, or `None` outside the rectangle.
    pub fn number(self, square: Square) -> Option<usize> {
        let column = square.column.checked_sub(self.left)?;
        let row = square.row.checked_sub(self.bottom)?;
        if column < self.width && row < self.height {
            Some(row as usize * self.width as usize + column as usize)
        } else {
            None
        }
    }
}
