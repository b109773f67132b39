//! Checking pieces as one, where each plane shows one kind round all of them, or bars.
ghost use Rattle.std.specs.Prelude.{◌≡◌, ◌+◌, ◌<◌, ◌≤◌, ℕ, false, IfNone, IfSome, IsTrue, List};
ghost use Rattle.mls_errorplane.specs.Common.{ChangesOnly, HasLayout, Layout, Rect, SquareSet, flat_layout, joined};
ghost use Rattle.mls_errorplane.specs.CatchingUp.{Steps};
ghost use Rattle.mls_errorplane.specs.DirtyLists.{area_of};
ghost use Rattle.mls_errorplane.specs.ErrorPlanes.{HasMarks, ShowsMarks, StandsApart, checking_of};
ghost use Rattle.mls_errorplane.specs.Stretches.{AreRight, AreRightIn, AreSound, DropsAll, IsAlike, Tells};

use crate::checked::{Checked, Source};
use crate::dirty::lies_in_world;
use crate::expecting::expected_alike;
use crate::stretch::Stretch;
use crate::{CheckContext, ErrorPlane};
use mls_geom::Rect;
use mls_layout::{Likeness, Workspace, shows_alike};
use mls_stitch::Plane;

/// With what the next stretch is tried.
#[derive(Clone, Copy)]
struct Trial {
    /// The pieces that were checked last.
    checked: Checked,
    /// How many pieces or rows it has at most.
    most: u32,
    /// How many tiles the error plane may have.
    limit: u32,
}

/// Returns how many pieces or rows to try after a stretch that had at most `most`: as many as are expected to be alike,
/// and else twice as many; but only one where as many were expected before, or it was the rest of its area.
fn next_most(stretch: &Stretch, most: u32, before: u32, expected: u32) -> u32
    requires { 1 ≤ most }
    ensures { 1 ≤ result }
{
    let others = match stretch.rest {
        Some(_) if most != before => most.saturating_mul(2),
        _ => 1,
    };
    expected.max(others)
}

/// Returns pieces that were checked and tell what the marks in the rectangle must be, if the layout with the uses has
/// the likeness for that round both together: the last pieces, if it shows one kind; and else the last pieces or their
/// row, if the rectangle goes on with these and it shows bars.
fn alike_source(
    planes: &[Plane],
    context: &CheckContext<'_>,
    checked: &Checked,
    rect: Rect,
    workspace: &mut Workspace,
) -> Option<Source>
    requires layout { HasLayout workspace.old.pool planes.now context.now.uses.library.now }
    ensures tells { IfSome result (λ source. Tells source.likeness source.rect rect) }
    ensures alike { IfSome result (λ source. IsAlike source.likeness context.now.rules.now
        (flat_layout workspace.old.pool context.now.uses planes.now) (joined source.rect rect)) }
    ensures right { (layout : Layout) (marks : SquareSet)
        → AreRightIn context.now.rules.now layout marks checked.now
        → IfSome result (λ source. AreRight context.now.rules.now layout marks source.rect) }
    ensures pool { workspace.new.pool ≡ workspace.old.pool }
{
    let last = Source {
        rect: checked.last,
        likeness: Likeness::OneKind,
    };
    lies_in_world(last.rect);
    if is_alike(
        planes,
        context,
        last.likeness,
        last.rect.joined(rect),
        workspace,
    ) {
        return Some(last);
    }
    let source = checked.source_of(rect)?;
    let both = source.rect.joined(rect);
    if !is_alike(planes, context, source.likeness, both, workspace) {
        return None;
    }
    Some(source)
}

/// Returns whether the tiles of each plane and of each use show the likeness in the rectangle and as far round it as
/// the rules reach, so that each plane of the layout with the uses has it there.
fn is_alike(
    planes: &[Plane],
    context: &CheckContext<'_>,
    likeness: Likeness,
    rect: Rect,
    workspace: &mut Workspace,
) -> bool
    requires layout { HasLayout workspace.old.pool planes.now context.now.uses.library.now }
    ensures alike { IsTrue result → IsAlike likeness context.now.rules.now
        (flat_layout workspace.old.pool context.now.uses planes.now) rect }
    ensures pool { workspace.new.pool ≡ workspace.old.pool }
{
    let halo = context.rules.halo();
    mls_layout::is_alike(planes, &context.uses, likeness, rect, halo, workspace)
}

impl ErrorPlane {
    /// Takes the next pieces out of the areas as long as their marks are known, and returns how many these were: as
    /// many check steps, each of them done. They are known where each plane shows the same round them as round pieces
    /// that were checked before. If they change, they do so at once, but only where the tiles before and after are
    /// together well within the limit. Where the error plane has more than `limit` tiles, takes none.
    ///
    /// Goes on from rectangle to rectangle, where round both together each plane of the layout shows one kind; to the
    /// right, where they show rows; and from row to row, where they show columns. A rectangle is as large as tiles are
    /// expected to go on alike, or twice as large as the one before, or, where that is too much, half as large, and the
    /// first of an area is one piece or one row: so each search is small beside what it is about to save.
    ///
    /// The marks must be right in the rectangles of `checked`, and are so in those that it has afterwards: the last
    /// pieces that were taken. The planes and the cells must be of other owners than the error plane. No memory is
    /// taken.
    pub fn settle(
        &mut self,
        planes: &[Plane],
        context: &CheckContext<'_>,
        checked: &mut Checked,
        limit: u32,
        workspace: &mut Workspace,
    ) -> u64
        requires layout { HasLayout workspace.old.pool planes.now context.now.uses.library.now }
        requires apart { StandsApart self.old.owner planes.now context.now.uses.library.now }
        requires marks { HasMarks workspace.old.pool limit self.old }
        requires right { AreRightIn context.now.rules.now
            (flat_layout workspace.old.pool context.now.uses planes.now)
            (checking_of workspace.old.pool self.old).marks checked.old }
        ensures steps { Steps context.now.rules.now (flat_layout workspace.old.pool context.now.uses planes.now) limit
            result (checking_of workspace.old.pool self.old) (checking_of workspace.new.pool self.new) }
        ensures right { AreRightIn context.now.rules.now
            (flat_layout workspace.old.pool context.now.uses planes.now)
            (checking_of workspace.new.pool self.new).marks checked.new }
        ensures fewer { result + area_of self.new.dirty ≤ area_of self.old.dirty }
        ensures marks { ShowsMarks workspace.new.pool self.new }
        ensures only { ChangesOnly workspace.old.pool workspace.new.pool self.old.owner }
        ensures owner { self.new.owner ≡ self.old.owner }
    {
        if self.tiles(&workspace.pool) > limit {
            return 0;
        }
        if self.areas() == 0 {
            return 0;
        }
        let mut most: u32 = 1;
        let mut expected = 0;
        let mut steps = 0;
        'stretches: while most > 0 {
            let trial = Trial {
                checked: *checked,
                most,
                limit,
            };
            let Some(stretch) = self.drop_one_stretch(planes, context, &trial, workspace) else {
                most /= 2;
                continue;
            };
            steps += stretch.pieces;
            *checked = checked.then(stretch.rect);
            let before = expected;
            expected = expected_alike(planes, context, checked, stretch.rest, workspace);
            most = next_most(&stretch, most, before, expected);
        }
        steps
    }

    /// Takes the next stretch out of the areas, and returns it, where the marks in it are known to be right or can be
    /// made so at once. Otherwise changes nothing.
    fn drop_one_stretch(
        &mut self,
        planes: &[Plane],
        context: &CheckContext<'_>,
        trial: &Trial,
        workspace: &mut Workspace,
    ) -> Option<Stretch>
        requires some { 1 ≤ trial.now.most }
        requires layout { HasLayout workspace.old.pool planes.now context.now.uses.library.now }
        requires marks { HasMarks workspace.old.pool trial.now.limit self.old }
        requires sound { AreSound context.now.rules.now
            (flat_layout workspace.old.pool context.now.uses planes.now)
            trial.now (checking_of workspace.old.pool self.old).marks }
        ensures steps { IfSome result (λ stretch. Steps context.now.rules.now
            (flat_layout workspace.old.pool context.now.uses planes.now) trial.now.limit stretch.pieces
            (checking_of workspace.old.pool self.old) (checking_of workspace.new.pool self.new)) }
        ensures fewer { IfSome result (λ stretch. (0 < stretch.pieces)
            × (stretch.pieces + area_of self.new.dirty ≤ area_of self.old.dirty)) }
        ensures right { IfSome result (λ stretch. AreRight context.now.rules.now
            (flat_layout workspace.old.pool context.now.uses planes.now)
            (checking_of workspace.new.pool self.new).marks stretch.rect) }
        ensures sound { AreSound context.now.rules.now
            (flat_layout workspace.old.pool context.now.uses planes.now)
            trial.now (checking_of workspace.new.pool self.new).marks }
        ensures none { IfNone result ((self.new ≡ self.old) × (workspace.new.pool ≡ workspace.old.pool)) }
        ensures marks { ShowsMarks workspace.new.pool self.new }
        ensures only { ChangesOnly workspace.old.pool workspace.new.pool self.old.owner }
        ensures owner { self.new.owner ≡ self.old.owner }
    {
        let stretch = self.dirty.next_stretch(trial.most)?;
        if self.make_right(planes, context, trial, stretch.rect, workspace) {
            self.dirty.drop_stretch(&stretch);
            return Some(stretch);
        }
        if trial.most > 1 {
            return None;
        }
        self.dirty.drop_known(&trial.checked)
    }

    /// Makes the marks in the rectangle right, and returns whether they are now: they are if it was checked before, or
    /// pieces that were checked tell them, and the error plane shows these marks already, or few enough tiles can show
    /// them. Otherwise changes nothing.
    fn make_right(
        &mut self,
        planes: &[Plane],
        context: &CheckContext<'_>,
        trial: &Trial,
        rect: Rect,
        workspace: &mut Workspace,
    ) -> bool
        requires layout { HasLayout workspace.old.pool planes.now context.now.uses.library.now }
        requires marks { HasMarks workspace.old.pool trial.now.limit self.old }
        requires sound { AreSound context.now.rules.now
            (flat_layout workspace.old.pool context.now.uses planes.now)
            trial.now (checking_of workspace.old.pool self.old).marks }
        ensures steps { IsTrue result → (count : ℕ) (old new : List Rect) → DropsAll rect count old new
            → Steps context.now.rules.now (flat_layout workspace.old.pool context.now.uses planes.now) trial.now.limit count
            (record { marks = (checking_of workspace.old.pool self.old).marks; dirty = old })
            (record { marks = (checking_of workspace.new.pool self.new).marks; dirty = new }) }
        ensures right { IsTrue result → AreRight context.now.rules.now
            (flat_layout workspace.old.pool context.now.uses planes.now)
            (checking_of workspace.new.pool self.new).marks rect }
        ensures sound { AreSound context.now.rules.now
            (flat_layout workspace.old.pool context.now.uses planes.now)
            trial.now (checking_of workspace.new.pool self.new).marks }
        ensures refused { result ≡ false → (self.new ≡ self.old) × (workspace.new.pool ≡ workspace.old.pool) }
        ensures marks { ShowsMarks workspace.new.pool self.new }
        ensures only { ChangesOnly workspace.old.pool workspace.new.pool self.old.owner }
        ensures owner { self.new.owner ≡ self.old.owner }
        ensures dirty { self.new.dirty ≡ self.old.dirty }
    {
        let checked = &trial.checked;
        if checked.encloses(rect) {
            return true;
        }
        let Some(source) = alike_source(planes, context, checked, rect, workspace) else {
            return false;
        };
        lies_in_world(rect);
        lies_in_world(source.rect);
        let both = source.rect.joined(rect);
        let Workspace { pool, scratch, .. } = workspace;
        if shows_alike(pool, &self.plane, source.likeness, both, 0, scratch) {
            return true;
        }
        self.carry(source, rect, trial.limit, workspace)
    }
}
