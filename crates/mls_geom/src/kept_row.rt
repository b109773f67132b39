//! A row of runs that is kept from band to band, and changed only where squares change.
ghost use Rattle.std.specs.Prelude.{◌≡◌, ℕ, ◌+◌, ◌<◌, ◌≤◌, [], Bool, Err, Result, OnOk, IfSome, length, vec_len};
ghost use Rattle.std.specs.List.{All};
ghost use Rattle.std.specs.List.Sorted.{IsNonDecreasingBy};
ghost use Rattle.mls_geom.specs.Locality.{covered_count};
ghost use Rattle.mls_geom.specs.Sweep.Changing as spec;
ghost use Rattle.mls_geom.specs.Sweep.Changing.{AreInOrder, IsBand, IsChange, IsChangeOf, runs_of};
ghost use Rattle.mls_geom.specs.Sweep.KeptRows.{AreMarks, AwaitsChange, IsKept};
ghost use Rattle.mls_geom.specs.Sweep.Slots.{AreCuts, IsBetweenLines};
ghost use Rattle.mls_geom.specs.Sweep.Stacks.{up_to};
ghost use Rattle.mls_geom.specs.World.{AreLegal, world};
ghost use Rattle.mls_geom.specs.declared.stopped.Stopped.TheVariants.{TooMany};

use crate::Piece;
use crate::chain::GaveUp;
use crate::lines::{find_line, sort_dedup};
use crate::part::Span;
use crate::row_change::{Band, Change, Slots, change_slots, keep_runs};
use crate::stopped::Stopped;
use crate::tree::Tree;
use crate::world::{HIGH, LOW};
use std::alloc::{AllocError, Global};
use std::mem::swap;

/// The runs of a row, each by the index of its strip, and the strips of the rows up to it.
///
/// A strip of the row reaches up to the world's top line until its run goes.
#[derive(Drop)]
pub(crate) struct KeptRow {
    /// Lines of columns, which cut the row into slots.
    pub(crate) lines: Vec<u32>,
    /// Slots in which squares change.
    pub(crate) marks: Vec<Span>,
    pub(crate) row: Vec<u32>,
    pub(crate) next: Vec<u32>,
    pub(crate) strips: Vec<Piece>,
}

/// Returns whether the strip at an index ends left of a line.
fn ends_before(strips: &[Piece], index: u32, line: u32) -> bool
    ensures { result ≡ spec.ends_before strips.now line index }
{
    match strips.get(index as usize) {
        Some(strip) => strip.rect.area().right < line,
        None => false,
    }
}

/// Returns whether the strip at an index begins at a line or left of it.
fn begins_by(strips: &[Piece], index: u32, line: u32) -> bool
    ensures { result ≡ spec.begins_by strips.now line index }
{
    match strips.get(index as usize) {
        Some(strip) => strip.rect.area().left <= line,
        None => false,
    }
}

impl KeptRow {
    /// Creates a row without room.
    pub(crate) fn new(alloc: Global) -> KeptRow {
        KeptRow {
            lines: Vec::new(alloc),
            marks: Vec::new(alloc),
            row: Vec::new(alloc),
            next: Vec::new(alloc),
            strips: Vec::new(alloc),
        }
    }

    /// Reserves room for so many pieces and strips.
    pub(crate) fn reserve(&mut self, room: usize) -> Result<(), AllocError> {
        let lines = room.saturating_mul(2).saturating_add(2);
        self.lines.reserve_exact(lines)?;
        self.marks.reserve_exact(room.saturating_mul(16))?;
        self.row.reserve_exact(lines)?;
        self.next.reserve_exact(lines)?;
        self.strips.reserve_exact(room)
    }

    /// Begins at the world's bottom line, and lists the lines of columns of the world and of the pieces.
    pub(crate) fn begin(&mut self, pieces: &[Piece]) -> Result<(), GaveUp>
        requires legal { AreLegal pieces.now }
        ensures cuts { OnOk result (AreCuts world self.new.lines.items) }
        ensures between { OnOk result (All (λ piece. IsBetweenLines self.new.lines.items piece.rect) pieces.now) }
        ensures kept { (picture : ℕ → ℕ → ℕ) → IsKept picture world.bottom self.new.strips.items self.new.row.items }
        ensures strips { self.new.strips.items ≡ [] }
        ensures marks { self.new.marks.items ≡ [] }
    {
        self.marks.clear();
        self.row.clear();
        self.strips.clear();
        self.lines.clear();
        if self.lines.capacity() / 2 <= pieces.len() {
            return Err(GaveUp);
        }
        self.lines.push_reserved(LOW);
        self.lines.push_reserved(HIGH);
        for piece in pieces {
            let edges = piece.rect.area();
            self.lines.push_reserved(edges.left);
            self.lines.push_reserved(edges.right);
        }
        sort_dedup(&mut self.lines);
        Ok(())
    }

    /// Returns the slots that a mark changes, with those of the runs that it meets or touches, or `None` if such a run
    /// begins or ends inside a slot.
    fn change_of(&self, mark: Span) -> Option<Change>
        requires cuts { AreCuts world self.now.lines.items }
        requires wide { mark.first < mark.end }
        requires in_row { mark.end < length self.now.lines.items }
        requires known { All (λ k. k < length self.now.strips.items) self.now.row.items }
        requires ordered { AreInOrder (runs_of self.now.strips.items self.now.row.items) }
        ensures { IfSome result (λ change. IsChangeOf self.now.lines.items (runs_of self.now.strips.items self.now.row.items) mark change.slots change.runs) }
    {
        let left = self.lines[mark.first];
        let right = self.lines[mark.end];
        let strips = self.strips.as_slice();
        let first = self
            .row
            .partition_point(|index| ends_before(strips, *index, left));
        let end = self
            .row
            .partition_point(|index| begins_by(strips, *index, right));
        let runs = Span { first, end };
        if end <= first {
            return Some(Change { slots: mark, runs });
        }
        let leftmost = strips[self.row[first] as usize].rect.area();
        let rightmost = strips[self.row[end - 1] as usize].rect.area();
        let slots = Span {
            first: find_line(&self.lines, left.min(leftmost.left), mark.first)?,
            end: find_line(&self.lines, right.max(rightmost.right), mark.end)?,
        };
        Some(Change { slots, runs })
    }

    /// Returns what the mark at an index changes, and those after it that change slots which meet or touch that, and the
    /// index after these marks.
    fn next_change(&self, index: usize) -> Option<(Change, usize)>
        requires cuts { AreCuts world self.now.lines.items }
        requires marks { AreMarks self.now.lines.items self.now.marks.items }
        requires sorted { IsNonDecreasingBy (λ (mark : Span). mark.first) self.now.marks.items }
        requires known { All (λ k. k < length self.now.strips.items) self.now.row.items }
        requires ordered { AreInOrder (runs_of self.now.strips.items self.now.row.items) }
        requires within { index < length self.now.marks.items }
        ensures { IfSome result (λ r. IsChange self.now.lines.items (runs_of self.now.strips.items self.now.row.items) self.now.marks.items index r.1 r.0.slots r.0.runs) }
    {
        let mark = self.marks[index];
        let mut change = self.change_of(mark)?;
        let mut after = index + 1;
        while after < self.marks.len() {
            let mark = self.marks[after];
            let more = self.change_of(mark)?;
            if change.slots.end < more.slots.first {
                break;
            }
            change.slots.end = change.slots.end.max(more.slots.end);
            change.runs.end = change.runs.end.max(more.runs.end);
            after += 1;
        }
        Some((change, after))
    }

    /// Changes the row to that of the band above a line, of which the tree has the pieces.
    pub(crate) fn change(&mut self, tree: &Tree, line: u32, limit: usize) -> Result<(), Stopped>
        requires cuts { AreCuts world self.old.lines.items }
        requires slots { length self.old.lines.items ≤ tree.now.width + 1 }
        requires marks { AreMarks self.old.lines.items self.old.marks.items }
        requires from { world.bottom ≤ line }
        requires to { line < world.top }
        requires within { vec_len self.old.strips ≤ limit }
        requires drawn { (picture : ℕ → ℕ → ℕ) × (present : ℕ → Bool) × AwaitsChange tree.now self.old picture present line }
        ensures kept { OnOk result ((picture : ℕ → ℕ → ℕ) (present : ℕ → Bool) (top : ℕ)
            → AwaitsChange tree.now self.old picture present line
            → IsBand world picture line top
            → top ≤ world.top
            → IsKept picture top self.new.strips.items self.new.row.items) }
        ensures too_many { result ≡ Err TooMany → (picture : ℕ → ℕ → ℕ) (present : ℕ → Bool) (top : ℕ)
            → AwaitsChange tree.now self.old picture present line
            → IsBand world picture line top
            → top ≤ world.top
            → limit < covered_count (up_to top world) picture }
        ensures within { OnOk result (vec_len self.new.strips ≤ limit) }
        ensures marks { OnOk result (self.new.marks.items ≡ []) }
        ensures lines { self.new.lines.items ≡ self.old.lines.items }
    {
        if self.marks.is_empty() {
            return Ok(());
        }
        self.marks.sort_unstable_by_key(|mark| mark.first);
        self.next.clear();
        let band = Band {
            bottom: line,
            limit,
        };
        let mut passed = 0;
        let mut index = 0;
        while index < self.marks.len() {
            let Some((change, after)) = self.next_change(index) else {
                return Err(Stopped::GaveUp);
            };
            let kept = Span {
                first: passed,
                end: change.runs.first,
            };
            keep_runs(&self.row, kept, &mut self.next)?;
            let slots = Slots {
                tree,
                lines: &self.lines,
            };
            change_slots(
                &slots,
                &self.row,
                change,
                band,
                &mut self.strips,
                &mut self.next,
            )?;
            passed = change.runs.end;
            index = after;
        }
        let kept = Span {
            first: passed,
            end: self.row.len(),
        };
        keep_runs(&self.row, kept, &mut self.next)?;
        self.marks.clear();
        swap(&mut self.row, &mut self.next);
        Ok(())
    }
}
