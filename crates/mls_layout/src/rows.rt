//! Rows of the squares of a grid.
ghost use Rattle.std.specs.Prelude.{◌≡◌, ◌↔◌, ◌+◌, ◌-◌, ◌<◌, ◌≤◌, ◌&&◌, ℕ, nat_le, nat_lt, true, if◌then◌else◌, EachIndex, IsTrue, length, slice_index};
ghost use Rattle.mls_geom.specs.Rects.{IsRectangleIn, holds};
ghost use Rattle.mls_layout.specs.Grids.{IsBlock, grid_kind, grid_size, place_in_block};

use mls_geom::Area;
use mls_kinds::Kind;

/// How many squares stand between those of a row and those of the next.
pub(crate) const STRIDE: usize = 512;

/// Returns where a square of a block stands.
pub(crate) fn place_of(block: &Area, column: u32, row: u32) -> usize
    requires block { IsBlock block.now }
    requires inside { holds block.now column row ≡ true }
    ensures value { result ≡ place_in_block block.now column row }
    ensures room { result + (block.now.right - column) ≤ grid_size }
{
    (row - block.bottom) as usize * STRIDE + (column - block.left) as usize
}

/// Gives a kind to the squares from one place up to another.
fn fill_row(squares: &mut [Kind], from: usize, to: usize, kind: Kind)
    requires ordered { from ≤ to }
    requires within { to ≤ length squares.old }
    ensures { (place : ℕ) → slice_index squares.new place
        ≡ (if nat_le from place && nat_lt place to then kind else slice_index squares.old place) }
{
    squares[from..to].fill(kind);
}

/// Gives a kind to the squares of an area of a block.
pub(crate) fn fill_rows(squares: &mut [Kind], block: &Area, area: &Area, kind: Kind)
    requires block { IsBlock block.now }
    requires inside { IsRectangleIn block.now area.now }
    requires size { length squares.old ≡ grid_size }
    ensures { (x y : ℕ) → holds block.now x y ≡ true → grid_kind squares.new block.now x y
        ≡ (if holds area.now x y then kind else grid_kind squares.old block.now x y) }
{
    'rows: for row in area.bottom..area.top {
        let from = place_of(block, area.left, row);
        let to = from + (area.right - area.left) as usize;
        fill_row(squares, from, to, kind);
    }
}

/// Returns whether all squares of a row are of this kind.
fn row_has_kind(row: &[Kind], kind: Kind) -> bool
    ensures { IsTrue result ↔ EachIndex row.now (λ k. slice_index row.now k ≡ kind) }
{
    row.iter().all(|other| *other == kind)
}

/// Returns whether the squares of an area of a block are of this kind.
pub(crate) fn rows_have_kind(squares: &[Kind], block: &Area, area: &Area, kind: Kind) -> bool
    requires block { IsBlock block.now }
    requires inside { IsRectangleIn block.now area.now }
    requires size { length squares.now ≡ grid_size }
    ensures { IsTrue result
        ↔ ((x y : ℕ) → holds area.now x y ≡ true → grid_kind squares.now block.now x y ≡ kind) }
{
    'tested: for row in area.bottom..area.top {
        let from = place_of(block, area.left, row);
        let to = from + (area.right - area.left) as usize;
        if !row_has_kind(&squares[from..to], kind) {
            return false;
        }
    }
    true
}

/// Returns the first place after one, and before another, whose kind is another, or else the last of the three.
pub(crate) fn end_of_alike(squares: &[Kind], from: usize, to: usize) -> usize
    requires some { from < to }
    requires within { to ≤ length squares.now }
    ensures after { from < result }
    ensures within { result ≤ to }
    ensures alike { (place : ℕ) → from ≤ place → place < result
        → slice_index squares.now place ≡ slice_index squares.now from }
{
    let kind = squares[from];
    for place in from + 1..to {
        if squares[place] != kind {
            return place;
        }
    }
    to
}
