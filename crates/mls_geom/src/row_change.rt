//! The runs of a row in slots that change, and the strips that they go on with or begin.
ghost use Rattle.std.specs.Prelude.{◌≡◌, ◌≢◌, ℕ, ◌+◌, ◌<◌, ◌≤◌, ◌↔◌, ◌∷◌, ◌++◌, List, [], Bool, Err, Result, IsTrue, OnOk, IfOk, IfSome, length, slice_index, slice_range, vec_len};
ghost use Rattle.std.specs.List.{All, AllWithin};
ghost use Rattle.mls_geom.specs.Locality.{covered_count, uncovered};
ghost use Rattle.mls_geom.specs.Pictures.{Picture};
ghost use Rattle.mls_geom.specs.Strips.{IsRun};
ghost use Rattle.mls_geom.specs.Sweep.Changing.{IsChanging, ShowsSlots, runs_of, strip_of};
ghost use Rattle.mls_geom.specs.Sweep.KeptRows.{strip_at};
ghost use Rattle.mls_geom.specs.Sweep.Slots.{AreCuts};
ghost use Rattle.mls_geom.specs.Sweep.Stacks.{up_to};
ghost use Rattle.mls_geom.specs.Sweep.Trees.{IsTop, IsTree, kind_shown};
ghost use Rattle.mls_geom.specs.World.{world};
ghost use Rattle.mls_geom.specs.declared.stopped.Stopped.TheVariants.{TooMany};

use crate::chain::GaveUp;
use crate::part::Span;
use crate::run::Run;
use crate::stack::extend_to;
use crate::stopped::Stopped;
use crate::tree::{Stretch, Tree};
use crate::world::HIGH;
use crate::{Piece, Rect};

/// What changes of a row.
#[derive(Clone, Copy)]
pub(crate) struct Change {
    /// Slots that change.
    pub(crate) slots: Span,
    /// Indices of the row's runs that the slots meet or touch.
    pub(crate) runs: Span,
}

/// The slots of a row: what they show, and the lines between which they lie.
#[derive(Clone, Copy)]
pub(crate) struct Slots<'a> {
    pub(crate) tree: &'a Tree,
    pub(crate) lines: &'a [u32],
}

/// A band's bottom line, and how many strips there may be at most.
#[derive(Clone, Copy)]
pub(crate) struct Band {
    pub(crate) bottom: u32,
    pub(crate) limit: usize,
}

/// Ends the strips of some runs of the row at a line.
fn end_runs(row: &[u32], runs: Span, line: u32, strips: &mut Vec<Piece>)
    requires drawn { (picture : Picture) × (top : ℕ) × (column : ℕ) × (next : List ℕ)
        × IsChanging picture line top column strips.old.items row.now next runs.first runs.first }
    requires onward { runs.first ≤ runs.end }
    requires within { runs.end ≤ length row.now }
    requires to { line ≤ world.top }
    ensures changing { (picture : Picture) (top column : ℕ) (next : List ℕ)
        → IsChanging picture line top column strips.old.items row.now next runs.first runs.first
        → IsChanging picture line top column strips.new.items row.now next runs.first runs.end }
    ensures same_runs { runs_of strips.new.items row.now ≡ runs_of strips.old.items row.now }
    ensures len { vec_len strips.new ≡ vec_len strips.old }
{
    for index in runs.first..runs.end {
        extend_to(&mut strips[row[index] as usize], line);
    }
}

/// Returns the index of the first of some runs that doesn't begin left of a line, or the end of these runs.
fn first_at_or_after(row: &[u32], strips: &[Piece], runs: Span, left: u32) -> usize
    requires onward { runs.first ≤ runs.end }
    requires within { runs.end ≤ length row.now }
    requires known { All (λ k. k < length strips.now) row.now }
    ensures from { runs.first ≤ result }
    ensures to { result ≤ runs.end }
    ensures passed { AllWithin (λ k. (strip_at strips.now k).rect.left < left) row.now runs.first result }
    ensures stopped { result < runs.end → left ≤ (strip_of strips.now row.now result).rect.left }
{
    let mut index = runs.first;
    while index < runs.end && strips[row[index] as usize].rect.area().left < left {
        index += 1;
    }
    index
}

/// Returns whether the strip of the run at an index of the row has these ends and this kind.
fn has_strip(row: &[u32], strips: &[Piece], index: usize, run: &Run) -> bool
    requires within { index < length row.now }
    requires known { All (λ k. k < length strips.now) row.now }
    ensures { IsTrue result ↔ (((strip_of strips.now row.now index).rect.left ≡ run.now.left)
        × ((strip_of strips.now row.now index).rect.right ≡ run.now.right)
        × ((strip_of strips.now row.now index).kind ≡ run.now.kind)) }
{
    let strip = strips[row[index] as usize];
    let edges = strip.rect.area();
    edges.left == run.left && edges.right == run.right && strip.kind == run.kind
}

/// Adds a run to the next row, with the strip of the run below it that has its ends and its kind, or with a new one.
///
/// Returns the index of the first of the runs below that doesn't lie left of it.
fn add_run(
    row: &[u32],
    run: &Run,
    below: Span,
    band: Band,
    strips: &mut Vec<Piece>,
    next: &mut Vec<u32>,
) -> Result<usize, Stopped>
    requires drawn { (picture : Picture) × (top : ℕ)
        × IsChanging picture band.bottom top run.now.left strips.old.items row.now next.old.items below.first below.end
        × IsRun world picture run.now.left run.now.right band.bottom run.now.kind }
    requires right_out { AllWithin (λ k. run.now.right ≤ (strip_at strips.old.items k).rect.left) row.now below.end (length row.now) }
    requires within { vec_len strips.old ≤ band.limit }
    requires kind { run.now.kind < uncovered }
    ensures changing { IfOk result (λ under. (picture : Picture) (top : ℕ)
        → IsChanging picture band.bottom top run.now.left strips.old.items row.now next.old.items below.first below.end
        → IsRun world picture run.now.left run.now.right band.bottom run.now.kind
        → IsChanging picture band.bottom top run.now.right strips.new.items row.now next.new.items under below.end) }
    ensures too_many { result ≡ Err TooMany → (picture : Picture) (top : ℕ)
        → IsChanging picture band.bottom top run.now.left strips.old.items row.now next.old.items below.first below.end
        → IsRun world picture run.now.left run.now.right band.bottom run.now.kind
        → band.limit < covered_count (up_to top world) picture }
    ensures under { IfOk result (λ under. (below.first ≤ under) × (under ≤ below.end)) }
    ensures same_runs { OnOk result (runs_of strips.new.items row.now ≡ runs_of strips.old.items row.now) }
    ensures within { OnOk result (vec_len strips.new ≤ band.limit) }
{
    if next.len() == next.capacity() {
        return Err(Stopped::GaveUp);
    }
    let under = first_at_or_after(row, strips, below, run.left);
    if under < below.end && has_strip(row, strips, under, run) {
        let strip = row[under];
        extend_to(&mut strips[strip as usize], HIGH);
        next.push_reserved(strip);
        return Ok(under);
    }
    if strips.len() == band.limit {
        return Err(Stopped::TooMany);
    }
    if strips.len() == strips.capacity() {
        return Err(Stopped::GaveUp);
    }
    let Ok(strip) = u32::try_from(strips.len()) else {
        return Err(Stopped::GaveUp);
    };
    strips.push_reserved(Piece {
        rect: Rect::between(run.left, band.bottom, run.right, HIGH),
        kind: run.kind,
    });
    next.push_reserved(strip);
    Ok(under)
}

/// Returns what the first of some slots shows, and the end of those from it on that show the same.
fn stretch(tree: &Tree, slots: Span) -> Stretch
    requires wide { slots.first < slots.end }
    requires within { slots.end ≤ tree.now.width }
    requires tree { (present : ℕ → Bool) × IsTree tree.now present }
    ensures wide { slots.first < result.end }
    ensures within { result.end ≤ slots.end }
    ensures shows { (present : ℕ → Bool) (s : ℕ) → IsTree tree.now present → slots.first ≤ s → s < result.end
        → (rank : ℕ) × IsTop tree.now.segments.items present s rank × (result.kind ≡ kind_shown tree.now.segments.items rank) }
    ensures changes { result.end < slots.end → (present : ℕ → Bool) → IsTree tree.now present
        → (rank : ℕ) × IsTop tree.now.segments.items present result.end rank × (result.kind ≢ kind_shown tree.now.segments.items rank) }
    ensures kind { IfSome result.kind (λ kind. kind < uncovered) }
{
    let from = tree.shown_from(slots.first);
    let mut end = from.end;
    while end < slots.end {
        let next = tree.shown_from(end);
        if next.kind != from.kind {
            break;
        }
        end = next.end;
    }
    Stretch {
        kind: from.kind,
        end: end.min(slots.end),
    }
}

/// Works out the runs of some slots, above the runs that they meet or touch, and adds them to the next row.
pub(crate) fn change_slots(
    slots: &Slots<'_>,
    row: &[u32],
    change: Change,
    band: Band,
    strips: &mut Vec<Piece>,
    next: &mut Vec<u32>,
) -> Result<(), Stopped>
    requires cuts { AreCuts world slots.now.lines.now }
    requires slots { length slots.now.lines.now ≤ slots.now.tree.now.width + 1 }
    requires wide { change.slots.first < change.slots.end }
    requires in_row { change.slots.end < length slots.now.lines.now }
    requires onward { change.runs.first ≤ change.runs.end }
    requires runs_within { change.runs.end ≤ length row.now }
    requires to { band.bottom < world.top }
    requires left { AllWithin (λ k. (strip_at strips.old.items k).rect.left < slice_index slots.now.lines.now change.slots.end) row.now change.runs.first change.runs.end }
    requires right { AllWithin (λ k. slice_index slots.now.lines.now change.slots.end ≤ (strip_at strips.old.items k).rect.left) row.now change.runs.end (length row.now) }
    requires within { vec_len strips.old ≤ band.limit }
    requires drawn { (picture : Picture) × (present : ℕ → Bool) × (top : ℕ)
        × ShowsSlots slots.now.tree.now slots.now.lines.now picture present band.bottom change.slots
        × IsChanging picture band.bottom top (slice_index slots.now.lines.now change.slots.first) strips.old.items row.now next.old.items change.runs.first change.runs.first }
    ensures changing { OnOk result ((picture : Picture) (present : ℕ → Bool) (top : ℕ)
        → ShowsSlots slots.now.tree.now slots.now.lines.now picture present band.bottom change.slots
        → IsChanging picture band.bottom top (slice_index slots.now.lines.now change.slots.first) strips.old.items row.now next.old.items change.runs.first change.runs.first
        → IsChanging picture band.bottom top (slice_index slots.now.lines.now change.slots.end) strips.new.items row.now next.new.items change.runs.end change.runs.end) }
    ensures too_many { result ≡ Err TooMany → (picture : Picture) (present : ℕ → Bool) (top : ℕ)
        → ShowsSlots slots.now.tree.now slots.now.lines.now picture present band.bottom change.slots
        → IsChanging picture band.bottom top (slice_index slots.now.lines.now change.slots.first) strips.old.items row.now next.old.items change.runs.first change.runs.first
        → band.limit < covered_count (up_to top world) picture }
    ensures same_runs { OnOk result (runs_of strips.new.items row.now ≡ runs_of strips.old.items row.now) }
    ensures within { OnOk result (vec_len strips.new ≤ band.limit) }
{
    end_runs(row, change.runs, band.bottom, strips);
    let mut under = change.runs.first;
    let mut first = change.slots.first;
    while first < change.slots.end {
        let rest = Span {
            first,
            end: change.slots.end,
        };
        let shown = stretch(slots.tree, rest);
        if let Some(kind) = shown.kind {
            let run = Run {
                left: slots.lines[first],
                right: slots.lines[shown.end],
                kind,
                strip: 0,
            };
            let below = Span {
                first: under,
                end: change.runs.end,
            };
            under = add_run(row, &run, below, band, strips, next)?;
        }
        first = shown.end;
    }
    Ok(())
}

/// Adds runs of the row to the next one. Fails if that has no room for them.
pub(crate) fn keep_runs(row: &[u32], runs: Span, next: &mut Vec<u32>) -> Result<(), Stopped>
    requires onward { runs.first ≤ runs.end }
    requires within { runs.end ≤ length row.now }
    ensures kept { OnOk result (next.new.items ≡ next.old.items ++ slice_range row.now runs.first runs.end) }
    ensures few { result ≢ Err TooMany }
{
    if next.capacity() - next.len() < runs.end - runs.first {
        return Err(Stopped::GaveUp);
    }
    next.extend_from_slice(&row[runs.first..runs.end]).unwrap();
    Ok(())
}
