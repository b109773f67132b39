//! Pieces that were checked, from which the marks of others are known to be right.
ghost use Rattle.std.specs.Prelude.{◌≡◌, ℕ, IfSome, IsTrue, List};
ghost use Rattle.mls_errorplane.specs.Common.{EdgeRule, Layout, SquareSet};
ghost use Rattle.mls_errorplane.specs.Checkings.{Checking};
ghost use Rattle.mls_errorplane.specs.Outcomes.{HasFinished};
ghost use Rattle.mls_errorplane.specs.Stretches.{AreRight, AreRightIn, Tells};

use crate::Outcome;
use crate::dirty::lies_in_world;
use mls_checker::Finding;
use mls_geom::Rect;
use mls_layout::Likeness;

/// Which pieces were checked last, in whose rectangles the marks are right.
#[derive(Clone, Copy)]
pub struct Checked {
    /// The last one, or the last that were checked as one.
    pub last: Rect,
    /// The same, and to the left of it the pieces of its row that were checked just before.
    pub row: Rect,
    /// Rows that were checked one above another, and have the same columns.
    pub block: Rect,
    /// The one of all blocks that has the most squares.
    pub largest: Rect,
}

/// Checked pieces whose marks others have too, if each plane has a likeness in both together.
#[derive(Clone, Copy)]
pub(crate) struct Source {
    /// The checked pieces.
    pub rect: Rect,
    /// The likeness that each plane must have.
    pub likeness: Likeness,
}

impl Checked {
    /// Returns which pieces were checked last, after a finding was finished so: where it was, its piece is one of them.
    pub fn after_finding(
        checked: Option<Checked>,
        finding: &Finding,
        outcome: Outcome,
    ) -> Option<Checked>
        ensures { (rules : List EdgeRule) (planes : ℕ) (layout : Layout) (limit : ℕ) (old new : Checking)
            → HasFinished rules planes layout limit old finding.now outcome new
            → IfSome checked (AreRightIn rules layout old.marks) → IfSome result (AreRightIn rules layout new.marks) }
    {
        match outcome {
            Outcome::Finished => Some(Checked::after(&checked, finding.piece())),
            Outcome::Stale | Outcome::Full => checked,
        }
    }

    /// Returns which pieces were checked last, if those of the rectangle were checked after these, or as the first.
    pub(crate) fn after(checked: &Option<Checked>, rect: Rect) -> Checked
        ensures { (rules : List EdgeRule) (layout : Layout) (marks : SquareSet)
            → IfSome checked.now (AreRightIn rules layout marks) → AreRight rules layout marks rect
            → AreRightIn rules layout marks result }
    {
        match checked {
            Some(before) => before.then(rect),
            None => Checked {
                last: rect,
                row: rect,
                block: rect,
                largest: rect,
            },
        }
    }

    /// Returns which pieces were checked last, if those of the rectangle were checked after these.
    pub(crate) fn then(&self, rect: Rect) -> Checked
        ensures { (rules : List EdgeRule) (layout : Layout) (marks : SquareSet)
            → AreRightIn rules layout marks self.now → AreRight rules layout marks rect
            → AreRightIn rules layout marks result }
    {
        let row = row_with(self.row, rect);
        let block = block_with(self.block, row);
        Checked {
            last: rect,
            row,
            block,
            largest: larger(self.largest, block),
        }
    }

    /// Returns whether the rectangle lies in a block of checked pieces.
    pub(crate) fn encloses(&self, rect: Rect) -> bool
        ensures { IsTrue result → (rules : List EdgeRule) (layout : Layout) (marks : SquareSet)
            → AreRightIn rules layout marks self.now → AreRight rules layout marks rect }
    {
        self.block.encloses(rect) || self.largest.encloses(rect)
    }

    /// Returns the pieces whose marks those of the rectangle have, if each plane shows bars in both together: the last
    /// ones, if the rectangle goes on with them to the right, and the last row, if it goes on with that above.
    pub(crate) fn source_of(&self, rect: Rect) -> Option<Source>
        ensures tells { IfSome result (λ source. Tells source.likeness source.rect rect) }
        ensures right { (rules : List EdgeRule) (layout : Layout) (marks : SquareSet)
            → AreRightIn rules layout marks self.now
            → IfSome result (λ source. AreRight rules layout marks source.rect) }
    {
        let last = self.last;
        let row = self.row;
        lies_in_world(last);
        lies_in_world(row);
        if is_beside(rect, last) {
            return Some(Source {
                rect: last,
                likeness: Likeness::Rows,
            });
        }
        if is_above(rect, row) {
            return Some(Source {
                rect: row,
                likeness: Likeness::Columns,
            });
        }
        None
    }
}

/// Returns whether the rectangle begins where the row ends at the right, and has the same rows of squares.
fn is_beside(rect: Rect, row: Rect) -> bool
    ensures { IsTrue result → (rect.left ≡ row.right) × (rect.bottom ≡ row.bottom) × (rect.top ≡ row.top) }
{
    let lines = rect.area();
    let before = row.area();
    lines.left == before.right && lines.bottom == before.bottom && lines.top == before.top
}

/// Returns whether the rectangle begins where the row ends above, and has the same columns of squares.
fn is_above(rect: Rect, row: Rect) -> bool
    ensures { IsTrue result → (rect.left ≡ row.left) × (rect.right ≡ row.right) }
{
    let lines = rect.area();
    let below = row.area();
    lines.bottom == below.top && lines.left == below.left && lines.right == below.right
}

/// Returns the row with the rectangle, if that goes on with it to the right, and else the rectangle alone.
fn row_with(row: Rect, rect: Rect) -> Rect
    ensures { (rules : List EdgeRule) (layout : Layout) (marks : SquareSet) → AreRight rules layout marks row
        → AreRight rules layout marks rect → AreRight rules layout marks result }
{
    if is_beside(rect, row) {
        return row.joined(rect);
    }
    rect
}

/// Returns the block with the row, if that goes on with it above; the block, if it encloses the row, or that is a part
/// of the next one; and else the row.
fn block_with(block: Rect, row: Rect) -> Rect
    ensures { (rules : List EdgeRule) (layout : Layout) (marks : SquareSet) → AreRight rules layout marks block
        → AreRight rules layout marks row → AreRight rules layout marks result }
{
    if block.encloses(row) {
        return block;
    }
    let lines = block.area();
    let next = row.area();
    if next.left != lines.left || next.bottom != lines.top || lines.right < next.right {
        return row;
    }
    if next.right < lines.right {
        return block;
    }
    block.joined(row)
}

/// Returns the one of two blocks that has more squares.
fn larger(one: Rect, other: Rect) -> Rect
    ensures { (rules : List EdgeRule) (layout : Layout) (marks : SquareSet) → AreRight rules layout marks one
        → AreRight rules layout marks other → AreRight rules layout marks result }
{
    if one.area().size() < other.area().size() {
        return other;
    }
    one
}
