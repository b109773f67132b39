//! The pieces that reach a line between two rows of a block.
use mls_geom::Piece;
use std::alloc::{AllocError, Global};
use std::mem::swap;

/// The pieces that end at the line below a row, and those that end at the line above it, by their indexes in a list and
/// from left to right.
///
/// They are where to look first: nothing is promised of them.
#[derive(Drop)]
pub(crate) struct Front {
    below: Vec<usize>,
    /// How many of the pieces below were passed.
    passed: usize,
    above: Vec<usize>,
}

impl Front {
    /// Creates a front without pieces.
    pub fn new(alloc: Global) -> Front {
        Front {
            below: Vec::new(alloc),
            passed: 0,
            above: Vec::new(alloc),
        }
    }

    /// Passes the pieces below whose left line lies before a column, and returns the next, if there is one.
    pub fn pass_to(&mut self, left: u32, pieces: &[Piece]) -> Option<usize> {
        'passing: while self.passed < self.below.len() {
            let index = self.below[self.passed];
            if !begins_before(pieces, index, left) {
                return Some(index);
            }
            self.passed += 1;
        }
        None
    }

    /// Adds a piece that ends at the line above the row. Fails if memory runs out.
    pub fn push(&mut self, index: usize) -> Result<(), AllocError> {
        self.above.push(index)?;
        Ok(())
    }

    /// Goes on to the next row, below which are the pieces that were above this one.
    pub fn turn(&mut self) {
        swap(&mut self.below, &mut self.above);
        self.above.clear();
        self.passed = 0;
    }
}

/// Returns whether there is a piece at the index, and its left line lies before a column.
fn begins_before(pieces: &[Piece], index: usize, left: u32) -> bool {
    match pieces.get(index) {
        Some(piece) => piece.rect.area().left < left,
        None => false,
    }
}
