//! The squares of a grid as pieces: a run of columns, in rows that are alike.
ghost use Rattle.std.specs.Prelude.{◌≡◌, ◌+◌, ◌<◌, ◌≤◌, ℕ, true, length, slice_set, IfSome, OnOk};
ghost use Rattle.mls_geom.specs.Pictures.{Picture};
ghost use Rattle.mls_geom.specs.Rects.{IsRectangleIn, Rect, holds};
ghost use Rattle.mls_layout.specs.Grids.{GainArea, IsBlock, IsRunFrom, Raises, Shows, grid_picture, grid_size, row_of};

use crate::front::Front;
use crate::rows::{end_of_alike, place_of};
use mls_geom::{Area, Piece, Rect};
use mls_kinds::Kind;
use std::alloc::AllocError;

/// Adds pieces that have the squares of a row of a block to the pieces of the rows below it, which begin at the index
/// `first`. Fails if memory runs out.
pub(crate) fn push_row(
    squares: &[Kind],
    block: &Area,
    row: u32,
    first: usize,
    front: &mut Front,
    out: &mut Vec<Piece>,
) -> Result<(), AllocError>
    requires block { IsBlock block.now }
    requires size { length squares.now ≡ grid_size }
    requires from { block.now.bottom ≤ row }
    requires before { row < block.now.top }
    requires first { first ≤ length out.old.items }
    ensures { OnOk result (GainArea block.now (grid_picture squares.now block.now) first (row_of row block.now)
        out.old.items out.new.items) }
{
    let mut left = block.left;
    'runs: while left < block.right {
        let run = run_from(squares, block, left, row);
        push_run(&run, first, front, out)?;
        left = run.rect.area().right;
    }
    Ok(())
}

/// Returns the squares of a row from a column on that are of one kind.
fn run_from(squares: &[Kind], block: &Area, left: u32, row: u32) -> Piece
    requires block { IsBlock block.now }
    requires size { length squares.now ≡ grid_size }
    requires inside { holds block.now left row ≡ true }
    ensures { IsRunFrom block.now (grid_picture squares.now block.now) left row result }
{
    let from = place_of(block, left, row);
    let end = end_of_alike(squares, from, from + (block.right - left) as usize);
    let right = left + (end - from) as u32;
    Piece {
        rect: Rect::between(left, row, right, row + 1),
        kind: squares[from],
    }
}

/// Adds a run to the piece that it lies on, if it is as wide and of the same kind, or else as a piece of its own.
/// Fails if memory runs out.
fn push_run(
    run: &Piece,
    first: usize,
    front: &mut Front,
    out: &mut Vec<Piece>,
) -> Result<(), AllocError>
    requires { first ≤ length out.old.items }
    ensures { OnOk result ((block : Rect) (picture : Picture) → IsRectangleIn block run.now.rect
        → Shows picture run.now
        → GainArea block picture first run.now.rect out.old.items out.new.items) }
{
    if let Some(index) = front.pass_to(run.rect.area().left, out) {
        if let Some(taller) = raised_at(out, first, index, run) {
            out[index] = taller;
            return front.push(index);
        }
    }
    front.push(out.len())?;
    out.push(*run)?;
    Ok(())
}

/// Returns the piece at an index with a run on top of it, if the index isn't below `first`, the run lies on the piece,
/// and it is as wide and of the same kind.
fn raised_at(pieces: &[Piece], first: usize, index: usize, run: &Piece) -> Option<Piece>
    ensures { IfSome result (λ taller. Raises pieces.now first index run.now taller) }
{
    if index < first {
        return None;
    }
    let piece = pieces.get(index)?;
    let lines = piece.rect.area();
    let above = run.rect.area();
    if lines.left == above.left
        && lines.right == above.right
        && lines.top == above.bottom
        && piece.kind == run.kind
    {
        Some(Piece {
            rect: Rect::between(lines.left, lines.bottom, lines.right, above.top),
            kind: piece.kind,
        })
    } else {
        None
    }
}
