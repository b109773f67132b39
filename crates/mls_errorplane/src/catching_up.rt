//! Checking all areas of a layout that await it.
ghost use Rattle.std.specs.Prelude.{◌≡◌};
ghost use Rattle.mls_errorplane.specs.Common.{ChangesOnly, HasLayout, flat_layout};
ghost use Rattle.mls_errorplane.specs.CatchingUp.{HasCaughtUp};
ghost use Rattle.mls_errorplane.specs.ErrorPlanes.{HasMarks, ShowsMarks, StandsApart, checking_of};

use crate::checked::Checked;
use crate::{CheckContext, ErrorPlane, Stepped};
use mls_layout::Workspace;
use mls_stitch::Plane;
use std::alloc::Global;

/// How catching up ended.
#[derive(Clone, Copy)]
pub enum CaughtUp {
    /// No area awaits checking.
    Done,
    /// After the next step the error plane would have more tiles than the limit.
    Full,
    /// Memory ran out, after this many steps that were done.
    Memory { steps: u64 },
}

impl ErrorPlane {
    /// Checks piece after piece in a layout on these planes with the uses, until no area awaits checking or a step
    /// isn't done.
    ///
    /// Where each plane shows one kind round many pieces, they are checked as one. So are whole rows above one that was
    /// just checked, where each plane shows bars that go up through all of them, and pieces to the right of one that
    /// was just checked, where bars go across all of them. If the marks of these pieces change, they do so at once, but
    /// only where the tiles before and after are together well within the limit.
    ///
    /// The steps that were done stay so. The planes and the cells must be of other owners than the error plane.
    pub fn catch_up(
        &mut self,
        alloc: Global,
        planes: &[Plane],
        context: &CheckContext<'_>,
        limit: u32,
        workspace: &mut Workspace,
    ) -> CaughtUp
        requires layout { HasLayout workspace.old.pool planes.now context.now.uses.library.now }
        requires apart { StandsApart self.old.owner planes.now context.now.uses.library.now }
        requires marks { HasMarks workspace.old.pool limit self.old }
        ensures caught_up { HasCaughtUp context.now.rules.now
            (flat_layout workspace.old.pool context.now.uses planes.now) limit
            (checking_of workspace.old.pool self.old) result (checking_of workspace.new.pool self.new) }
        ensures marks { ShowsMarks workspace.new.pool self.new }
        ensures only { ChangesOnly workspace.old.pool workspace.new.pool self.old.owner }
        ensures owner { self.new.owner ≡ self.old.owner }
    {
        let mut done = 0;
        let mut checked: Option<Checked> = None;
        'steps: while let Some(piece) = self.dirty.first_piece() {
            match self.step(alloc, planes, context, limit, workspace) {
                Stepped::Done => {
                    let mut now = Checked::after(&checked, piece);
                    let more = self.settle(planes, context, &mut now, limit, workspace);
                    checked = Some(now);
                    done += 1 + more;
                }
                Stepped::Idle => return CaughtUp::Done,
                Stepped::Full => return CaughtUp::Full,
                Stepped::Memory => return CaughtUp::Memory { steps: done },
            }
        }
        CaughtUp::Done
    }
}
