//! The kinds of the squares of a block, a byte each.
ghost use Rattle.std.specs.Prelude.{◌≡◌, ◌↔◌, ℕ, true, IfOk, IsTrue, OnOk};
ghost use Rattle.mls_geom.specs.Pictures.{empty_picture, painted};
ghost use Rattle.mls_geom.specs.Rects.{IsRectangleIn, Rect, holds};
ghost use Rattle.mls_layout.specs.Grids.{AppendsCover, IsBlock, grid_picture};

use crate::front::Front;
use crate::grid_pieces::push_row;
use crate::rows::{STRIDE, fill_rows, rows_have_kind};
use mls_geom::{Piece, Rect};
use mls_kinds::Kind;
use std::alloc::{AllocError, Global};
use std::marker::Model;

/// A block is at most this wide and this high.
pub const BLOCK_SIDE: u32 = 512;

/// The kinds of the squares of a block of the world, of at most 512 by 512 squares.
///
/// A call says which block it means: the squares stand in rows of 512 from its lower left, whatever its size. What a
/// call writes or reads is no more than the squares that it names.
#[derive(Drop)]
pub struct KindGrid {
    squares: Vec<Kind>,
}

impl Model for KindGrid {
    ghost use Rattle.std.specs.Prelude.{◌≡◌, ℕ, List, length};
    ghost use Rattle.mls_layout.specs.Grids.{grid_size};

    ghost Value = { List ℕ };

    ghost view = { λ g. g.squares.items };

    ghost invariant = { λ g. length g.squares.items ≡ grid_size };
}

impl KindGrid {
    /// Creates a grid whose squares are all space, with the memory that it will ever take: 256 KiB. Fails if memory
    /// runs out.
    pub fn new(alloc: Global) -> Result<KindGrid, AllocError>
        ensures { IfOk result (λ grid. (block : Rect) → grid_picture grid block ≡ empty_picture) }
    {
        let squares = vec![in alloc; Kind::SPACE; STRIDE * STRIDE]?;
        Ok(KindGrid { squares })
    }

    /// Gives all squares of a block to space.
    pub fn clear(&mut self, block: Rect)
        requires { IsBlock block }
        ensures { grid_picture self.new block ≡ empty_picture }
    {
        let lines = block.area();
        fill_rows(&mut self.squares, &lines, &lines, Kind::SPACE);
    }

    /// Paints a piece that lies in a block.
    pub fn fill(&mut self, block: Rect, piece: &Piece)
        requires block { IsBlock block }
        requires inside { IsRectangleIn block piece.now.rect }
        ensures { grid_picture self.new block ≡ painted (grid_picture self.old block) piece.now }
    {
        fill_rows(
            &mut self.squares,
            &block.area(),
            &piece.rect.area(),
            piece.kind,
        );
    }

    /// Returns whether all squares of a rectangle that lies in a block are of this kind.
    pub fn has_kind(&self, block: Rect, rect: Rect, kind: Kind) -> bool
        requires block { IsBlock block }
        requires inside { IsRectangleIn block rect }
        ensures { IsTrue result ↔ ((x y : ℕ) → holds rect x y ≡ true → grid_picture self.now block x y ≡ kind) }
    {
        rows_have_kind(&self.squares, &block.area(), &rect.area(), kind)
    }

    /// Appends pieces that show a block: rectangles of squares of one kind, which leave none of its squares out.
    ///
    /// A run of squares of one kind is as wide as it goes in its row, and goes on upwards as long as the next row has a
    /// run of the same columns and kind. Space is listed like any other kind. Fails if memory runs out, and may have
    /// appended some of the pieces then.
    pub fn push_pieces(&self, block: Rect, out: &mut Vec<Piece>) -> Result<(), AllocError>
        requires { IsBlock block }
        ensures { OnOk result (AppendsCover block (grid_picture self.now block) out.old.items out.new.items) }
    {
        let lines = block.area();
        let first = out.len();
        let mut front = Front::new(*out.allocator());
        for row in lines.bottom..lines.top {
            push_row(&self.squares, &lines, row, first, &mut front, out)?;
            front.turn();
        }
        Ok(())
    }
}
