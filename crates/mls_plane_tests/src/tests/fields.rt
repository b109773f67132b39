//! Fields of random layouts.
use crate::tests::checks::{Sides, piece};
use crate::tests::dice::Dice;
use crate::tests::layouts::Layout;
use mls_geom::{Piece, Rect, RectFault};
use mls_kinds::PlaneNumber;
use mls_plain_check::Squares;
use std::alloc::Global;
use std::test::Fail;

/// The side of a block of a wide field.
pub const WIDE: i32 = 8;

/// The types of the pieces that are painted on a plane, each as likely as the others.
pub type Types = [u8; 4];

/// Returns how many words a map of a piece has: in each row those of the piece, and on each side those of the halo.
pub fn words_of(piece: Rect, halo: u32) -> u64 {
    let lines = piece.area();
    let around = halo.saturating_mul(2);
    let width = lines.right.saturating_sub(lines.left);
    let height = lines.top.saturating_sub(lines.bottom);
    let words = width.saturating_add(around).div_ceil(64);
    let rows = height.saturating_add(around);
    u64::from(words).saturating_mul(u64::from(rows))
}

/// Whether a piece of so many tiles is dense, a map of which has so many words, by so many rules that aren't idle.
pub fn is_dense(tiles: u64, words: u64, rules: u64) -> bool {
    let by_sides = rules.saturating_mul(tiles.saturating_sub(8).saturating_mul(8));
    by_sides > words.saturating_mul(rules.saturating_add(4))
}

/// 16 by 16 blocks on which pieces are painted, for rules of some halo.
#[derive(Clone, Copy)]
pub struct Field {
    left: i32,
    bottom: i32,
    /// The side of a block.
    scale: i32,
    pub halo: u32,
    /// Whether each block is a piece.
    is_full: bool,
    /// Whether one plane more is full of bricks, which no rule looks at.
    has_bricks: bool,
}

impl Field {
    /// The field of a layout: in the middle of the world and in its corners in turn. One of two has bricks, and one of
    /// two is full.
    pub fn of_layout(number: usize, scale: i32, halo: u32) -> Field {
        let low = -1048576;
        let high = 1048576i32.saturating_sub(scale.saturating_mul(16));
        let (left, bottom) = match number % 5 {
            0 => (0, 0),
            1 => (low, low),
            2 => (high, low),
            3 => (low, high),
            _ => (high, high),
        };
        Field {
            left,
            bottom,
            scale,
            halo,
            is_full: number % 4 > 1,
            has_bricks: number % 2 == 1,
        }
    }

    /// The squares of some blocks, given the numbers of their lines.
    fn sides(self, blocks: Sides) -> Sides {
        let (left, bottom, right, top) = blocks;
        let x = |line: i32| self.left.saturating_add(line.saturating_mul(self.scale));
        let y = |line: i32| self.bottom.saturating_add(line.saturating_mul(self.scale));
        (x(left), y(bottom), x(right), y(top))
    }

    /// The rectangle of all blocks and of the squares around them: so many that a layout of few tiles goes by sides.
    pub fn whole(self) -> Result<Rect, RectFault> {
        let around = if self.scale == WIDE { 4 } else { 24 };
        Ok(self.rect((0, 0, 16, 16))?.grow(around))
    }

    /// The rectangle of all that a check looks at.
    pub fn zone(self) -> Result<Rect, RectFault> {
        Ok(self.whole()?.grow(self.halo))
    }

    /// Whether a square is of a brick, which is as wide as a block and one square high.
    fn is_brick(self, column: i32, row: i32) -> bool {
        let place = if self.scale == WIDE {
            column >> 3
        } else {
            column
        };
        (place ^ row) & 1 == 0
    }

    /// Whether the bricks alone make a piece dense, by however many rules that aren't idle.
    pub fn is_dense_by_bricks(self, piece: Rect) -> bool {
        let squares = piece.grow(self.halo).area().size();
        let tiles = if self.scale == WIDE {
            squares / 8
        } else {
            squares
        };
        self.has_bricks && is_dense(tiles, words_of(piece, self.halo), 1)
    }

    /// The rectangle of some blocks.
    pub fn rect(self, blocks: Sides) -> Result<Rect, RectFault> {
        let (left, bottom, right, top) = self.sides(blocks);
        Rect::new(left, bottom, right, top)
    }
}

/// One of the types.
fn random_type(dice: &mut Dice, types: Types) -> u8 {
    types[usize::from(dice.roll() % 4)]
}

/// A random piece on a field.
fn random_piece(dice: &mut Dice, field: Field, types: Types) -> Result<Piece, RectFault> {
    let sides = field.sides(dice.area());
    piece(random_type(dice, types), sides)
}

/// The blocks of a field, each of a random type.
fn random_blocks(
    alloc: Global,
    dice: &mut Dice,
    field: Field,
    types: Types,
) -> Result<Vec<Piece>, Fail> {
    let mut pieces = Vec::new(alloc);
    for row in 0i32..16 {
        for column in 0i32..16 {
            let right = column.saturating_add(1);
            let block = field.sides((column, row, right, row.saturating_add(1)));
            pieces.push(piece(random_type(dice, types), block)?)?;
        }
    }
    Ok(pieces)
}

/// Five random pieces on a field, or its blocks.
fn random_pieces(
    alloc: Global,
    dice: &mut Dice,
    field: Field,
    types: Types,
) -> Result<Vec<Piece>, Fail> {
    if field.is_full {
        return random_blocks(alloc, dice, field, types);
    }
    let mut pieces = Vec::new(alloc);
    for _ in 0..5 {
        let next = random_piece(dice, field, types)?;
        pieces.push(next)?;
    }
    Ok(pieces)
}

/// The bricks of a field.
fn bricks(alloc: Global, field: Field) -> Result<Vec<Piece>, Fail> {
    let zone = field.zone()?;
    let mut bricks = Vec::new(alloc);
    for row in zone.bottom()..zone.top() {
        for column in zone.left()..zone.right() {
            if field.is_brick(column, row) {
                let (right, top) = (column.saturating_add(1), row.saturating_add(1));
                bricks.push(piece(1, (column, row, right, top))?)?;
            }
        }
    }
    Ok(bricks)
}

/// A layout with an empty plane more, and one of bricks.
fn with_bricks(alloc: Global, layout: Layout, field: Field) -> Result<Layout, Fail> {
    let bricks = bricks(alloc, field)?;
    layout.with(&[])?.with(&bricks)
}

/// A random layout with these planes, which is painted on squares too.
pub fn random_layout(
    alloc: Global,
    squares: &mut Squares,
    planes: &[Types],
    dice: &mut Dice,
    field: Field,
) -> Result<Layout, Fail> {
    let mut layout = Layout::new(alloc)?;
    let mut plane = 0u8;
    for types in planes {
        let pieces = random_pieces(alloc, dice, field, *types)?;
        squares.paint(PlaneNumber::new(plane), &pieces);
        layout = layout.with(&pieces)?;
        plane = plane.saturating_add(1);
    }
    if field.has_bricks {
        layout = with_bricks(alloc, layout, field)?;
    }
    Ok(layout)
}
