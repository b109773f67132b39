//! A sweep that keeps its row from band to band, and changes it only where pieces show that begin or end.
ghost use Rattle.std.specs.Prelude.{◌≡◌, ℕ, ◌+◌, ◌<◌, ◌≤◌, [], Bool, true, List, Err, IfOk, OnOk, length, vec_len};
ghost use Rattle.std.specs.List.{All};
ghost use Rattle.mls_geom.specs.Locality.{AreCoveredStrips, HaveKinds, covered_count, laid};
ghost use Rattle.mls_geom.specs.Sweep.BandLines.{AreBandLines};
ghost use Rattle.mls_geom.specs.Sweep.Events.{AreEvents, ArePlanted, Awaits, HaveChangedTops, IsNext, bottom_of, line_of, moved, present_after, present_before, top_of};
ghost use Rattle.mls_geom.specs.Sweep.KeptRows.{AreMarks, IsKept, IsMarked};
ghost use Rattle.mls_geom.specs.Sweep.Slots.{AreCuts, IsBetweenLines};
ghost use Rattle.mls_geom.specs.Sweep.Trees.{IsTop, IsTree, has_slot, none, span_of};
ghost use Rattle.mls_geom.specs.World.{AreLegal, world};
ghost use Rattle.mls_geom.specs.declared.piece.Piece.{Piece};
ghost use Rattle.mls_geom.specs.declared.stopped.Stopped.TheVariants.{TooMany};

use crate::Piece;
use crate::bands::list_band_lines;
use crate::chain::{GaveUp, Step};
use crate::crossings::are_deep;
use crate::events::{Event, list_events};
use crate::kept_row::KeptRow;
use crate::lines::find_line;
use crate::part::Span;
use crate::segment::Segment;
use crate::stopped::Stopped;
use crate::tree::Tree;
use std::alloc::{AllocError, Global};

/// How many marks a piece may have, each on the whole. Without a bound 2,000 rows between 2,000 columns of another kind,
/// over a square of the rows' kind, take four seconds: each row shows in each gap, and no kind changes.
const MARKS: usize = 64;

/// Buffers of a sweep upward that keeps its row.
#[derive(Drop)]
pub(crate) struct KeptSweep {
    lines: Vec<u32>,
    starts: Vec<Event>,
    ends: Vec<Event>,
    tree: Tree,
    pub(crate) row: KeptRow,
}

/// Lists the pieces' slots in the tree, without a piece that is present.
fn plant(pieces: &[Piece], lines: &[u32], tree: &mut Tree) -> Result<(), GaveUp>
    requires legal { AreLegal pieces.now }
    requires cuts { AreCuts world lines.now }
    requires between { All (λ piece. IsBetweenLines lines.now piece.rect) pieces.now }
    ensures tree { OnOk result (IsTree tree.new none) }
    ensures planted { OnOk result (ArePlanted lines.now pieces.now tree.new.segments.items) }
    ensures slots { OnOk result (length lines.now ≤ tree.new.width + 1) }
{
    tree.begin(lines.len() - 1)?;
    let Ok(_) = u32::try_from(pieces.len()) else {
        return Err(GaveUp);
    };
    if tree.segments.capacity() < pieces.len() {
        return Err(GaveUp);
    }
    let mut near = 0;
    for piece in pieces {
        let edges = piece.rect.area();
        let first = find_line(lines, edges.left, near).unwrap();
        let end = find_line(lines, edges.right, first).unwrap();
        near = first;
        tree.segments.push_reserved(Segment {
            span: Span { first, end },
            end: edges.top,
            kind: piece.kind,
        });
    }
    Ok(())
}

/// Marks the slots in which a piece may lie on top. Where it doesn't, pieces over it do.
fn mark(tree: &Tree, piece: u32, marks: &mut Vec<Span>) -> Result<(), GaveUp>
    requires known { piece < length tree.now.segments.items }
    requires tree { (present : ℕ → Bool) × IsTree tree.now present }
    ensures hidden { OnOk result ((present : ℕ → Bool) (s rank : ℕ) → IsTree tree.now present
        → has_slot (span_of tree.now.segments.items piece) s ≡ true → ¬ (IsMarked marks.new.items s)
        → IsTop tree.now.segments.items present s rank → piece + 1 < rank) }
    ensures more { (s : ℕ) → IsMarked marks.old.items s → IsMarked marks.new.items s }
    ensures marks { (lines : List ℕ) → (span_of tree.now.segments.items piece).end < length lines
        → AreMarks lines marks.old.items → AreMarks lines marks.new.items }
{
    let span = tree.segments[piece as usize].span;
    let mut first = span.first;
    while first < span.end {
        let reach = tree.shows_from(first, piece);
        let end = reach.end.min(span.end);
        if reach.shows {
            if marks.len() == marks.capacity() {
                return Err(GaveUp);
            }
            marks.push_reserved(Span { first, end });
        }
        first = end;
    }
    Ok(())
}

/// Puts a piece on the tree that begins, or takes one from it that ends, and marks where it shows.
fn move_piece(piece: u32, step: Step, tree: &mut Tree, marks: &mut Vec<Span>) -> Result<(), GaveUp>
    requires known { piece < length tree.old.segments.items }
    requires tree { (present : ℕ → Bool) × IsTree tree.old present × IsNext step tree.old.segments.items present piece }
    ensures tree { OnOk result ((present : ℕ → Bool) → IsTree tree.old present → IsNext step tree.old.segments.items present piece
        → IsTree tree.new (moved step present piece)) }
    ensures tops { OnOk result ((present : ℕ → Bool) → IsTree tree.old present → IsNext step tree.old.segments.items present piece
        → HaveChangedTops marks.new.items tree.old.segments.items present (moved step present piece)) }
    ensures more { (s : ℕ) → IsMarked marks.old.items s → IsMarked marks.new.items s }
    ensures marks { (lines : List ℕ) → (span_of tree.old.segments.items piece).end < length lines
        → AreMarks lines marks.old.items → AreMarks lines marks.new.items }
    ensures segments { tree.new.segments ≡ tree.old.segments }
    ensures width { tree.new.width ≡ tree.old.width }
{
    match step {
        Step::Begins => {
            tree.change(piece, step)?;
            mark(tree, piece, marks)
        }
        Step::Ends => {
            mark(tree, piece, marks)?;
            tree.change(piece, step)
        }
    }
}

/// Moves the pieces that begin at the line, or those that end there. Returns the events further up.
fn move_pieces<'a>(
    events: &'a [Event],
    line: u32,
    step: Step,
    tree: &mut Tree,
    marks: &mut Vec<Span>,
) -> Result<&'a [Event], GaveUp>
    requires tree { (lines : List ℕ) × (pieces : List Piece) × Awaits step lines pieces line events.now tree.old }
    ensures tree { OnOk result ((lines : List ℕ) (pieces : List Piece) → Awaits step lines pieces line events.now tree.old
        → IsTree tree.new (present_after step pieces line)) }
    ensures tops { OnOk result ((lines : List ℕ) (pieces : List Piece) → Awaits step lines pieces line events.now tree.old
        → HaveChangedTops marks.new.items tree.old.segments.items (present_before step pieces line) (present_after step pieces line)) }
    ensures rest { IfOk result (λ rest. (lines : List ℕ) (pieces : List Piece) → Awaits step lines pieces line events.now tree.old
        → AreEvents (line_of step) (line + 1) pieces rest.now) }
    ensures more { (s : ℕ) → IsMarked marks.old.items s → IsMarked marks.new.items s }
    ensures marks { (lines : List ℕ) (pieces : List Piece) → Awaits step lines pieces line events.now tree.old
        → AreMarks lines marks.old.items → AreMarks lines marks.new.items }
    ensures segments { tree.new.segments ≡ tree.old.segments }
    ensures width { tree.new.width ≡ tree.old.width }
{
    let reached = events.partition_point(|event| event.line <= line);
    let (first, rest) = events.split_at(reached);
    for event in first {
        move_piece(event.piece, step, tree, marks)?;
    }
    Ok(rest)
}

impl KeptSweep {
    /// Reserves room for so many pieces and strips.
    pub(crate) fn new(alloc: Global, room: usize) -> Result<KeptSweep, AllocError> {
        let mut sweep = KeptSweep {
            lines: Vec::new(alloc),
            starts: Vec::new(alloc),
            ends: Vec::new(alloc),
            tree: Tree::new(alloc),
            row: KeptRow::new(alloc),
        };
        sweep
            .lines
            .reserve_exact(room.saturating_mul(2).saturating_add(2))?;
        sweep.starts.reserve_exact(room)?;
        sweep.ends.reserve_exact(room)?;
        sweep.tree.reserve(room)?;
        sweep.row.reserve(room)?;
        Ok(sweep)
    }

    /// Changes the row at the line of each band, from the bottom up. Gives up where pieces have too many marks.
    fn sweep_bands(&mut self, pieces: &[Piece], limit: usize) -> Result<(), Stopped>
        requires legal { AreLegal pieces.now }
        requires kinds { HaveKinds pieces.now }
        requires lines { AreBandLines world pieces.now self.old.lines.items }
        requires starts { AreEvents bottom_of world.bottom pieces.now self.old.starts.items }
        requires ends { AreEvents top_of world.bottom pieces.now self.old.ends.items }
        requires cuts { AreCuts world self.old.row.lines.items }
        requires planted { ArePlanted self.old.row.lines.items pieces.now self.old.tree.segments.items }
        requires slots { length self.old.row.lines.items ≤ self.old.tree.width + 1 }
        requires tree { IsTree self.old.tree none }
        requires marks { self.old.row.marks.items ≡ [] }
        requires strips { self.old.row.strips.items ≡ [] }
        requires kept { IsKept (laid pieces.now) world.bottom self.old.row.strips.items self.old.row.row.items }
        ensures kept { OnOk result (IsKept (laid pieces.now) world.top self.new.row.strips.items self.new.row.row.items) }
        ensures within { OnOk result (vec_len self.new.row.strips ≤ limit) }
        ensures too_many { result ≡ Err TooMany → limit < covered_count world (laid pieces.now) }
    {
        let KeptSweep {
            lines,
            starts,
            ends,
            tree,
            row,
        } = self;
        let mut to_begin = starts.as_slice();
        let mut to_end = ends.as_slice();
        let most = pieces.len().saturating_mul(MARKS);
        let mut marked: usize = 0;
        for i in 1..lines.len() {
            let line = lines[i - 1];
            to_begin = move_pieces(to_begin, line, Step::Begins, tree, &mut row.marks)?;
            to_end = move_pieces(to_end, line, Step::Ends, tree, &mut row.marks)?;
            marked = marked.saturating_add(row.marks.len());
            if marked > most {
                return Err(Stopped::GaveUp);
            }
            row.change(tree, line, limit)?;
        }
        Ok(())
    }

    /// Finds the maximal strips of the squares that pieces cover. Gives up where few pieces lie beside each other.
    pub(crate) fn find_strips(&mut self, pieces: &[Piece], limit: usize) -> Result<(), Stopped>
        ensures strips { OnOk result (AreCoveredStrips world (laid pieces.now) self.new.row.strips.items) }
        ensures within { OnOk result (vec_len self.new.row.strips ≤ limit) }
        ensures too_many { result ≡ Err TooMany → limit < covered_count world (laid pieces.now) }
    {
        if self.lines.capacity() / 2 <= pieces.len() {
            return Err(Stopped::GaveUp);
        }
        list_band_lines(pieces, &mut self.lines);
        if !are_deep(&self.lines, pieces) {
            return Err(Stopped::GaveUp);
        }
        list_events(pieces, Step::Begins, &mut self.starts)?;
        list_events(pieces, Step::Ends, &mut self.ends)?;
        self.row.begin(pieces)?;
        plant(pieces, &self.row.lines, &mut self.tree)?;
        self.sweep_bands(pieces, limit)
    }
}
