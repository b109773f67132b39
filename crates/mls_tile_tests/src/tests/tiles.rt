//! Planes whose tiles and stitches were worked out by hand.
use crate::tests::pieces::{Sides, piece};
use crate::tests::sheet::{Row, Sheet, Square};
use mls_kinds::Kind;
use std::alloc::Global;
use std::process::Abort;
use std::test::Fail;

/// The lower-left squares of the tiles of a plane with one bar: B below it, L to its left, the bar P, R to its right,
/// and A above it.
const B: Option<Square> = Some((-1048576, -1048576));

const L: Option<Square> = Some((-1048576, 0));

const P: Option<Square> = Some((0, 0));

const R: Option<Square> = Some((1, 0));

const A: Option<Square> = Some((-1048576, 10));

/// The upper part of P, split at row 5.
const Q: Option<Square> = Some((0, 5));

const fn row(sides: Sides, kind: u8, stitches: [Option<Square>; 4]) -> Row {
    Row {
        sides,
        kind: Kind::new(kind),
        stitches,
    }
}

/// Builds the plane of a bar.
fn bar(alloc: Global) -> Result<Sheet, Fail> {
    Sheet::of(alloc, &[piece(1, (0, 0, 1, 10))?])
}

/// Returns the tiles of the plane of a bar.
fn rows_of_bar() -> [Row; 5] {
    [
        row((-1048576, -1048576, 1048576, 0), 0, [None, None, None, R]),
        row((-1048576, 0, 0, 10), 0, [B, None, P, A]),
        row((0, 0, 1, 10), 1, [B, L, R, A]),
        row((1, 0, 1048576, 10), 0, [B, P, None, A]),
        row((-1048576, 10, 1048576, 1048576), 0, [L, None, None, None]),
    ]
}

/// Returns them with the bar split at row 5.
fn rows_of_split_bar() -> [Row; 6] {
    [
        row((-1048576, -1048576, 1048576, 0), 0, [None, None, None, R]),
        row((-1048576, 0, 0, 10), 0, [B, None, Q, A]),
        row((0, 0, 1, 5), 1, [B, L, R, Q]),
        row((1, 0, 1048576, 10), 0, [B, P, None, A]),
        row((0, 5, 1, 10), 1, [P, L, R, A]),
        row((-1048576, 10, 1048576, 1048576), 0, [L, None, None, None]),
    ]
}

/// Asserts what the tiles of a plane are.
fn expect_rows(
    rt: &impl Abort,
    alloc: Global,
    sheet: &mut Sheet,
    rows: &[Row],
) -> Result<(), Fail> {
    let found = sheet.rows(alloc)?;
    assert_eq!(rt; found.as_slice(), rows);
    Ok(())
}

/// Asserts which tiles an area search finds.
fn expect_area(
    rt: &impl Abort,
    alloc: Global,
    sheet: &mut Sheet,
    area: Sides,
    corners: &[Square],
) -> Result<(), Fail> {
    let found = sheet.area(alloc, area)?;
    assert_eq!(rt; found.as_slice(), corners);
    Ok(())
}

#[test]
fn bar_has_five_tiles(rt: HostRuntime) -> Result<(), Fail> {
    let mut sheet = bar(rt.alloc())?;
    expect_rows(&rt, rt.alloc(), &mut sheet, &rows_of_bar())
}

/// Asserts what the tiles of a bar are when it is split and joined again.
fn expect_split_and_joined(rt: &impl Abort, alloc: Global, sheet: &mut Sheet) -> Result<(), Fail> {
    sheet.split(0, 5)?;
    expect_rows(rt, alloc, sheet, &rows_of_split_bar())?;
    sheet.join(0, 5)?;
    expect_rows(rt, alloc, sheet, &rows_of_bar())
}

#[test]
fn bar_splits_and_joins(rt: HostRuntime) -> Result<(), Fail> {
    let mut sheet = bar(rt.alloc())?;
    expect_split_and_joined(&rt, rt.alloc(), &mut sheet)
}

#[test]
fn area_of_bar_in_order(rt: HostRuntime) -> Result<(), Fail> {
    let mut sheet = bar(rt.alloc())?;
    let corners = [(-1048576, 0), (0, 0), (1, 0), (-1048576, 10)];
    expect_area(&rt, rt.alloc(), &mut sheet, (-1, 5, 2, 12), &corners)
}

/// Builds planes in the pool of a bar, each of which is released before the next.
fn build_beside(sheet: &mut Sheet) -> Result<(), Fail> {
    let pieces = [piece(3, (-5, -5, 5, 5))?, piece(0, (-3, -3, 3, 3))?];
    for _ in 0..300 {
        sheet.build_beside(&pieces)?;
    }
    Ok(())
}

#[test]
fn planes_of_one_pool_leave_one_another(rt: HostRuntime) -> Result<(), Fail> {
    let mut sheet = bar(rt.alloc())?;
    build_beside(&mut sheet)?;
    expect_rows(&rt, rt.alloc(), &mut sheet, &rows_of_bar())
}
