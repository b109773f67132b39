//! A search for forbidden squares, from edge to edge.
use crate::{Forbidden, Square, Squares};
use mls_edgerule::{Direction, EdgeRule, Rules};
use mls_geom::{Area, Rect};
use mls_kinds::KindSet;
use std::alloc::{AllocError, Global};

/// Finds the squares of a piece that the rules forbid in a layout, and by which rules.
///
/// The layout is one of the piece grown by the rules' halo, as far as that lies in the world, or of more.
pub fn find(
    alloc: Global,
    rules: &Rules,
    layout: &Squares,
    piece: Rect,
) -> Result<Forbidden, AllocError> {
    let zone = Area::around(piece, rules.halo());
    let mut found = Forbidden::none(alloc, piece)?;
    for (index, rule) in rules.as_slice().iter().enumerate() {
        for direction in rule.directions.list() {
            let search = Search {
                layout,
                rule,
                bit: 1 << index,
                direction: *direction,
            };
            search.add_zone(&mut found, zone);
        }
    }
    Ok(found)
}

/// A search by the edges of one rule in one direction.
#[derive(Clone, Copy)]
struct Search<'a> {
    layout: &'a Squares,
    rule: &'a EdgeRule,
    /// The rule's bit in the number of those that forbid a square.
    bit: u128,
    direction: Direction,
}

impl Search<'_> {
    /// Adds what the edges before the squares of a zone forbid.
    fn add_zone(&self, found: &mut Forbidden, zone: Area) {
        for row in zone.bottom..zone.top {
            for column in zone.left..zone.right {
                let square = Square { column, row };
                if self.is_edge(square) {
                    self.add_edge(found, square);
                }
            }
        }
    }

    /// Adds what the edge before a square forbids: of its row, and of the block on each flank that has a corner.
    fn add_edge(&self, found: &mut Forbidden, square: Square) {
        self.add_row(found, square);
        for flank in self.direction.across() {
            if self.is_corner(*flank, square) {
                self.add_block(found, *flank, square);
            }
        }
    }

    /// Adds what is forbidden of the row of squares that begins at a square.
    fn add_row(&self, found: &mut Forbidden, square: Square) {
        for ahead in 0..u32::from(self.rule.distance) {
            self.add(found, square.after(self.direction, ahead));
        }
    }

    /// Adds what is forbidden of the block of squares that begins beside a square, on a flank.
    fn add_block(&self, found: &mut Forbidden, flank: Direction, square: Square) {
        let size = u32::from(self.rule.corner_distance);
        for ahead in 0..size {
            for aside in 0..size {
                let reached = square.after(self.direction, ahead).after(flank, 1 + aside);
                self.add(found, reached);
            }
        }
    }

    /// Adds a square that an edge reaches, unless the rule allows its type.
    fn add(&self, found: &mut Forbidden, square: Square) {
        let kind = self.layout.type_at(self.rule.check_plane, square);
        if !self.rule.ok_types.contains(kind) {
            found.add(square, self.bit);
        }
    }

    /// Whether an edge lies between the square and the one before it.
    fn is_edge(&self, square: Square) -> bool {
        self.has(self.rule.types2, square)
            && self.has(self.rule.types1, square.before(self.direction))
    }

    /// Whether the square beside the one before this, on a flank of it, has a corner type.
    fn is_corner(&self, flank: Direction, square: Square) -> bool {
        let beside = square.before(self.direction).after(flank, 1);
        self.has(self.rule.corner_types, beside)
    }

    /// Whether the type of the square on the trigger plane is one of these.
    fn has(&self, types: KindSet, square: Square) -> bool {
        types.contains(self.layout.type_at(self.rule.trigger_plane, square))
    }
}
