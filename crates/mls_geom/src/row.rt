//! The runs of one row of painted pieces.
ghost use Rattle.std.specs.Prelude.{◌≡◌, ℕ, ◌+◌, ◌*◌, ◌<◌, ◌≤◌, IsTrue, OnOk, length, vec_len, vec_capacity};
ghost use Rattle.std.specs.List.{All};
ghost use Rattle.std.specs.List.Sorted.{IsStrictlyIncreasing};
ghost use Rattle.mls_geom.specs.Locality.{laid};
ghost use Rattle.mls_geom.specs.Sweep.Rows.{AreActive, AreRuns};
ghost use Rattle.mls_geom.specs.World.{AreLegal, world};
ghost use Rattle.mls_geom.specs.Sweep.Slots.{AreBetweenLines, AreCuts};

use crate::Piece;
use crate::lines::{are_ascending, find_line, sort_dedup};
use crate::run::{Run, join_slots};
use crate::slots::paint_slots;
use crate::world::{HIGH, LOW};
use mls_kinds::Kind;
use std::alloc::{AllocError, Global};

/// Buffers in which the runs of a row are found.
#[derive(Drop)]
pub(crate) struct Row {
    pub(crate) lines: Vec<u32>,
    pub(crate) kinds: Vec<Option<Kind>>,
    pub(crate) runs: Vec<Run>,
}

impl Row {
    ghost use Rattle.mls_geom.specs.Sweep.RowRooms.{HasRowRoom};

    /// Creates buffers without room.
    pub(crate) fn new(alloc: Global) -> Row {
        Row {
            lines: Vec::new(alloc),
            kinds: Vec::new(alloc),
            runs: Vec::new(alloc),
        }
    }

    /// Reserves room for the lines of `pieces` pieces, so many, and those of the world.
    pub(crate) fn reserve(&mut self, pieces: usize, lines: usize) -> Result<(), AllocError>
        requires { lines ≡ 2 * pieces + 2 }
        ensures { OnOk result (HasRowRoom self.new pieces) }
    {
        self.lines.reserve_exact(lines)?;
        self.kinds.reserve_exact(lines)?;
        self.runs.reserve_exact(lines)
    }

    /// Fills `runs` with the runs of row `y`, in which the active pieces have squares.
    pub(crate) fn find_runs(&mut self, pieces: &[Piece], active: &[usize], y: u32)
        requires legal { AreLegal pieces.now }
        requires active { AreActive pieces.now y active.now }
        requires room { HasRowRoom self.old (length pieces.now) }
        ensures runs { AreRuns world (laid pieces.now) y self.new.runs.items }
        ensures room { (n : ℕ) → HasRowRoom self.old n → HasRowRoom self.new n }
    {
        list_lines(pieces, active, &mut self.lines);
        self.kinds.clear();
        // Their room is reserved, so the call succeeds.
        self.kinds.resize(self.lines.len() - 1, None).unwrap();
        paint_slots(pieces, active, &self.lines, &mut self.kinds);
        join_slots(&self.lines, &self.kinds, &mut self.runs);
    }
}

/// Fewer active pieces than this are not looked for among the lines of the row below.
const MANY: usize = 16;

/// Returns whether the lines cut the world from left to right.
fn are_cuts(lines: &[u32]) -> bool
    ensures { IsTrue result → AreCuts world lines.now }
{
    if lines.is_empty() || !are_ascending(lines) {
        return false;
    }
    lines[0] == LOW && lines[lines.len() - 1] == HIGH
}

/// Returns whether each active piece reaches from one of the lines to another.
fn are_between(lines: &[u32], pieces: &[Piece], active: &[usize]) -> bool
    requires ascending { IsStrictlyIncreasing lines.now }
    requires within { All (λ i. i < length pieces.now) active.now }
    ensures { IsTrue result → AreBetweenLines lines.now pieces.now active.now }
{
    let mut near = 0;
    for i in active {
        let edges = pieces[*i].rect.area();
        let Some(left) = find_line(lines, edges.left, near) else {
            return false;
        };
        let Some(right) = find_line(lines, edges.right, left) else {
            return false;
        };
        near = right;
    }
    true
}

/// Returns whether the lines of the row below serve for these active pieces too, and few of them are unused.
fn serve(lines: &[u32], pieces: &[Piece], active: &[usize]) -> bool
    requires { All (λ i. i < length pieces.now) active.now }
    ensures cuts { IsTrue result → AreCuts world lines.now }
    ensures between { IsTrue result → AreBetweenLines lines.now pieces.now active.now }
    ensures few { IsTrue result → length lines.now ≤ 2 * length active.now + 2 }
{
    if active.len() < MANY || lines.len() / 2 > active.len() {
        return false;
    }
    if !are_cuts(lines) {
        return false;
    }
    are_between(lines, pieces, active)
}

/// Lists lines that cut the row, from left to right: those of the world and of the active pieces, or the ones that are
/// listed already where they serve.
fn list_lines(pieces: &[Piece], active: &[usize], lines: &mut Vec<u32>)
    requires within { All (λ i. i < length pieces.now) active.now }
    requires no_more { length active.now ≤ length pieces.now }
    requires room { 2 * length pieces.now + 2 ≤ vec_capacity lines.old }
    ensures cuts { AreCuts world lines.new.items }
    ensures between { AreBetweenLines lines.new.items pieces.now active.now }
    ensures count { vec_len lines.new ≤ 2 * length pieces.now + 2 }
    ensures room { vec_capacity lines.new ≡ vec_capacity lines.old }
{
    if serve(lines, pieces, active) {
        return;
    }
    lines.clear();
    lines.push_reserved(LOW);
    lines.push_reserved(HIGH);
    for i in active {
        let edges = pieces[*i].rect.area();
        lines.push_reserved(edges.left);
        lines.push_reserved(edges.right);
    }
    sort_dedup(lines);
}
