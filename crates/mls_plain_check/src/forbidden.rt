//! Forbidden squares.
use crate::Square;
use crate::frame::Frame;
use mls_geom::Rect;
use std::alloc::{AllocError, Global};

/// The rules that forbid each square of a piece.
#[derive(Drop)]
pub struct Forbidden {
    frame: Frame,
    /// Bit n - 1 of a square's number is 1 for each rule n that forbids it.
    rules: Vec<u128>,
}

impl Forbidden {
    /// A piece of which no square is forbidden.
    pub(crate) fn none(alloc: Global, piece: Rect) -> Result<Forbidden, AllocError> {
        let frame = Frame::new(piece);
        Ok(Forbidden {
            frame,
            rules: vec![in alloc; 0; frame.len()]?,
        })
    }

    /// Adds a rule, as its bit, to those that forbid a square, if the square lies in the piece.
    pub(crate) fn add(&mut self, square: Square, rule: u128) {
        let Some(number) = self.frame.number(square) else {
            return;
        };
        if let Some(rules) = self.rules.get_mut(number) {
            *rules |= rule;
        }
    }

    /// Returns the rules that forbid a square: bit n - 1 for rule n. No bit is 1 outside the piece.
    pub fn rules_at(&self, square: Square) -> u128 {
        match self.frame.number(square) {
            Some(number) => self.rules.get(number).copied().unwrap_or(0),
            None => 0,
        }
    }

    /// Whether some rule forbids the square.
    pub fn is_marked(&self, square: Square) -> bool {
        self.rules_at(square) != 0
    }

    /// Returns the rules that forbid some square of a rectangle of the piece: bit n - 1 for rule n.
    pub fn why(&self, rect: Rect) -> u128 {
        let area = rect.area();
        let mut rules = 0;
        for row in area.bottom..area.top {
            for column in area.left..area.right {
                rules |= self.rules_at(Square { column, row });
            }
        }
        rules
    }
}
