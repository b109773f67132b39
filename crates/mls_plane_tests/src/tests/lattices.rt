//! A piece with as many sides and tiles in a row as there may be.
use crate::tests::checks::piece;
use crate::tests::layouts::Layout;
use crate::tests::rule_files::{TWO_PLANES, rules_of_lines};
use mls_checker::{check, why};
use mls_edgerule::{RuleSet, Rules};
use mls_geom::{Piece, Rect};
use std::alloc::{AllocError, Global};
use std::process::Abort;
use std::test::Fail;
use std::thread::{Builder, Threads};

const POLY: u8 = 1;

const NDIFF: u8 = 2;

const M1: u8 = 3;

/// Returns columns one square wide beside each other, of poly and diffusion by turns.
fn columns(alloc: Global, from: i32, to: i32) -> Result<Vec<Piece>, Fail> {
    let mut columns = Vec::new(alloc);
    for left in from..to {
        let kind = if left % 2 == 0 { POLY } else { NDIFF };
        columns.push(piece(kind, (left, from, left.saturating_add(1), to))?)?;
    }
    Ok(columns)
}

/// Returns every second row of metal, each one square high.
fn rows(alloc: Global, from: i32, to: i32) -> Result<Vec<Piece>, Fail> {
    let mut rows = Vec::new(alloc);
    for bottom in from..to {
        if bottom % 2 == 0 {
            rows.push(piece(M1, (from, bottom, to, bottom.saturating_add(1)))?)?;
        }
    }
    Ok(rows)
}

/// Returns a layout of these columns and rows.
fn lattice(alloc: Global, from: i32, to: i32) -> Result<Layout, Fail> {
    let columns = columns(alloc, from, to)?;
    let rows = rows(alloc, from, to)?;
    Layout::new(alloc)?.with(&columns)?.with(&rows)
}

/// Rules of the greatest distance.
const FAR_RULES: [&str; 5] = [
    "width poly 100 \"width\"",
    "spacing ndiff ndiff 100 touching_ok \"apart\"",
    "spacing poly ndiff 100 touching_illegal \"poly to ndiff\"",
    "spacing m1 m1 100 touching_illegal \"metal\"",
    "edge4way space m1 100 space,ndiff space,m1 100 \"poly under metal\" active",
];

/// The size of a small stack in bytes.
const SMALL_STACK: usize = 256 * 1024;

/// Returns which rules are violated in a piece, and how many areas of it are marked.
fn violated_and_marked(
    alloc: Global,
    rules: &Rules,
    layout: &mut Layout,
    looked: Rect,
) -> Result<(RuleSet, usize), AllocError> {
    let snapshot = layout.snapshot(alloc, looked.grow(rules.halo()))?;
    let violated = why(rules, &snapshot, looked);
    let finding = check(alloc, rules, snapshot, looked)?;
    Ok((violated, finding.marks().areas().len()))
}

/// Asserts that a thread with a small stack checks a piece, finds all rules violated, and marks some of its squares.
fn expect_on_small_stack<R: Abort + Threads>(
    rt: &R,
    alloc: Global,
    rules: Rules,
    layout: Layout,
    looked: Rect,
) -> Result<(), Fail> {
    let thread = Builder::new().stack_size(SMALL_STACK).spawn(rt, move || {
        let mut layout = layout;
        violated_and_marked(alloc, &rules, &mut layout, looked)
    })?;
    let (violated, marked) = thread.join(rt)?;
    assert_eq!(rt; violated.bits(), 0b11111);
    assert!(rt; marked != 0);
    Ok(())
}

#[test]
fn largest_piece_on_a_small_stack(rt: HostRuntime) -> Result<(), Fail> {
    let rules = rules_of_lines(rt.alloc(), TWO_PLANES, &FAR_RULES)?;
    assert_eq!(rt; rules.halo(), 101);
    // As far as the halo of the piece reaches.
    let layout = lattice(rt.alloc(), -101, 357)?;
    let looked = Rect::new(0, 0, 256, 256)?;
    expect_on_small_stack(&rt, rt.alloc(), rules, layout, looked)
}
