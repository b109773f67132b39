//! Layouts whose forbidden squares were worked out by hand.
use crate::tests::layouts::Layout;
use crate::tests::rule_files::rules_of;
use mls_checker::{Finding, check};
use mls_edgerule::Rules;
use mls_geom::{Piece, Point, Rect, RectFault};
use mls_kinds::Kind;
use mls_tech::TECHNOLOGY_M;
use std::alloc::Global;
use std::process::Abort;
use std::test::Fail;

const POLY: u8 = 1;

const NDIFF: u8 = 2;

/// The even coordinates from -8 to 14.
const EVEN: [i32; 12] = [-8, -6, -4, -2, 0, 2, 4, 6, 8, 10, 12, 14];

/// Four coordinates: left, bottom, right and top.
pub type Sides = (i32, i32, i32, i32);

/// A rectangle.
fn rect(sides: Sides) -> Result<Rect, RectFault> {
    let (left, bottom, right, top) = sides;
    Rect::new(left, bottom, right, top)
}

/// A rectangle of squares of the kind of this number.
pub fn piece(kind: u8, sides: Sides) -> Result<Piece, RectFault> {
    Ok(Piece {
        rect: rect(sides)?,
        kind: Kind::new(kind),
    })
}

/// The planes of technology M, with pieces on the plane of poly and diffusion alone.
fn active(alloc: Global, pieces: &[Piece]) -> Result<Layout, Fail> {
    Layout::new(alloc)?.with(pieces)?.with(&[])
}

/// Whether the square is in one of the rectangles.
fn is_in(rectangles: &[Sides], x: i32, y: i32) -> bool {
    rectangles.iter().any(|(left, bottom, right, top)| *left <= x
        && x < *right
        && *bottom <= y
        && y < *top)
}

/// Asserts that the squares of a piece that are marked are those that lie in the rectangles.
fn expect_marked(
    rt: &impl Abort,
    finding: &Finding,
    piece: Rect,
    marked: &[Sides],
) -> Result<(), Fail> {
    for y in piece.bottom()..piece.top() {
        for x in piece.left()..piece.right() {
            let square = Point::new(x, y).ok_or("no square")?;
            let is_marked = finding.marks().is_marked(square);
            assert_eq!(rt; is_marked, is_in(marked, x, y), "at {x}, {y}");
        }
    }
    Ok(())
}

/// Asserts that the marked squares of a piece are those of its squares that lie in the rectangles, and that the copy
/// that is checked is the same as the layout.
fn expect_in_piece(
    rt: &impl Abort,
    alloc: Global,
    rules: &Rules,
    layout: &mut Layout,
    piece: Rect,
    marked: &[Sides],
) -> Result<(), Fail> {
    let snapshot = layout.snapshot(alloc, piece.grow(rules.halo()))?;
    assert!(rt; layout.same(&snapshot));
    let finding = check(alloc, rules, snapshot, piece)?;
    expect_marked(rt, &finding, piece, marked)
}

/// Asserts the same of pieces of 2 by 2 squares.
fn expect_in_small_pieces(
    rt: &impl Abort,
    alloc: Global,
    rules: &Rules,
    layout: &mut Layout,
    marked: &[Sides],
) -> Result<(), Fail> {
    for bottom in EVEN {
        for left in EVEN {
            let (right, top) = (left.saturating_add(2), bottom.saturating_add(2));
            let small = rect((left, bottom, right, top))?;
            expect_in_piece(rt, alloc, rules, layout, small, marked)?;
        }
    }
    Ok(())
}

/// Asserts the same in technology M, of a piece that holds the whole layout and of pieces of 2 by 2 squares.
fn expect_marks(
    rt: &impl Abort,
    alloc: Global,
    pieces: &[Piece],
    marked: &[Sides],
) -> Result<(), Fail> {
    let whole = rect((-8, -8, 16, 16))?;
    let rules = rules_of(alloc, TECHNOLOGY_M)?;
    let mut layout = active(alloc, pieces)?;
    expect_in_piece(rt, alloc, &rules, &mut layout, whole, marked)?;
    expect_in_small_pieces(rt, alloc, &rules, &mut layout, marked)
}

#[test]
fn thin_bar(rt: HostRuntime) -> Result<(), Fail> {
    let bar = [piece(POLY, (0, 0, 1, 10))?];
    expect_marks(&rt, rt.alloc(), &bar, &[(1, 0, 2, 10)])
}

#[test]
fn close_bars(rt: HostRuntime) -> Result<(), Fail> {
    let bars = [piece(POLY, (0, 0, 2, 10))?, piece(POLY, (4, 0, 6, 10))?];
    expect_marks(&rt, rt.alloc(), &bars, &[(1, 0, 2, 10), (4, 0, 5, 10)])
}

#[test]
fn diagonal_squares(rt: HostRuntime) -> Result<(), Fail> {
    let squares = [piece(POLY, (0, 0, 2, 2))?, piece(POLY, (3, 3, 5, 5))?];
    expect_marks(&rt, rt.alloc(), &squares, &[(0, 0, 2, 2), (3, 3, 5, 5)])
}

#[test]
fn poly_beside_diffusion(rt: HostRuntime) -> Result<(), Fail> {
    let pieces = [piece(POLY, (0, 0, 2, 4))?, piece(NDIFF, (2, 0, 4, 4))?];
    expect_marks(&rt, rt.alloc(), &pieces, &[(2, 0, 3, 4)])
}

#[test]
fn inner_corner(rt: HostRuntime) -> Result<(), Fail> {
    let pieces = [piece(POLY, (2, 0, 4, 2))?, piece(POLY, (0, 2, 3, 4))?];
    expect_marks(&rt, rt.alloc(), &pieces, &[(3, 2, 4, 4)])
}

/// Asserts that nothing is marked in a piece, and that a check of it looks at 1 to 200 sides.
fn expect_few_sides(
    rt: &impl Abort,
    alloc: Global,
    rules: &Rules,
    layout: &mut Layout,
    piece: Rect,
) -> Result<(), Fail> {
    let snapshot = layout.snapshot(alloc, piece.grow(rules.halo()))?;
    let finding = check(alloc, rules, snapshot, piece)?;
    expect_marked(rt, &finding, piece, &[])?;
    let sides = finding.edges();
    assert!(rt; (1..=200).contains(&sides), "{sides} sides");
    Ok(())
}

#[test]
fn large_square(rt: HostRuntime) -> Result<(), Fail> {
    let square = [piece(POLY, (10, 10, 210, 210))?];
    let looked = rect((0, 0, 256, 256))?;
    let rules = rules_of(rt.alloc(), TECHNOLOGY_M)?;
    let mut layout = active(rt.alloc(), &square)?;
    expect_few_sides(&rt, rt.alloc(), &rules, &mut layout, looked)
}
