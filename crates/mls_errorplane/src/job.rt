//! Checks that are done outside an error plane.
ghost use Rattle.std.specs.Prelude.{◌≡◌, length};
ghost use Rattle.mls_layout.specs.Uses.{HasLayout, flat_layout};
ghost use Rattle.mls_errorplane.specs.ErrorPlanes.{checking_of};
ghost use Rattle.mls_errorplane.specs.Jobs.{HasGrabbed};

use crate::{CheckContext, ErrorPlane};
use mls_checker::Snapshot;
use mls_edgerule::BoxedRules;
use mls_geom::Rect;
use mls_layout::Workspace;
use mls_stitch::Plane;
use std::alloc::{AllocError, Global};

/// What a check outside needs: the first piece of the areas that await checking, a snapshot of its zone, and the rules.
#[derive(Drop)]
pub struct Job {
    /// The piece to check.
    pub piece: Rect,
    /// The layout in the piece's zone: the piece grown by the rules' halo, inside the world.
    pub snapshot: Snapshot,
    /// The rules to check it by.
    pub rules: BoxedRules,
}

impl ErrorPlane {
    /// Copies what a check of the first piece needs, in a layout on these planes with the uses, or returns `None` if
    /// no area awaits checking.
    ///
    /// Fails if memory runs out.
    pub fn grab(
        &self,
        alloc: Global,
        planes: &[Plane],
        context: &CheckContext<'_>,
        workspace: &mut Workspace,
    ) -> Result<Option<Job>, AllocError>
        requires layout { HasLayout workspace.old.pool planes.now context.now.uses.library.now }
        ensures grabbed { HasGrabbed context.now.rules.now (length planes.now)
            (flat_layout workspace.old.pool context.now.uses planes.now)
            (checking_of workspace.old.pool self.now) result }
        ensures pool { workspace.new.pool ≡ workspace.old.pool }
    {
        let Some(piece) = self.dirty.first_piece() else {
            return Ok(None);
        };
        let zone = piece.grow(context.rules.halo());
        let snapshot = Snapshot::read(alloc, planes, &context.uses, zone, workspace)?;
        Ok(Some(Job {
            piece,
            snapshot,
            rules: BoxedRules::copy_of(alloc, context.rules)?,
        }))
    }
}
