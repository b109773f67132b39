//! What layouts are checked by.
ghost use Rattle.std.specs.Prelude.{◌≡◌, IfOk};
ghost use Rattle.mls_errorplane.specs.Common.{HasLayout, IsRectangleIn, copied_layout, flat_layout, within, world, zone_of};

use crate::dirty::lies_in_world;
use mls_checker::Snapshot;
use mls_edgerule::Rules;
use mls_geom::Rect;
use mls_layout::{Uses, Workspace};
use mls_stitch::Plane;
use std::alloc::{AllocError, Global};

/// What a layout is checked by: the rules, and the uses that it shows beside its planes.
#[derive(Clone, Copy)]
pub struct CheckContext<'a> {
    pub rules: &'a Rules,
    pub uses: Uses<'a>,
}

impl<'a> CheckContext<'a> {
    /// Copies the squares of a layout on these planes in the rectangle and round it within the rules' halo, with
    /// stitches.
    pub(crate) fn copy_round(
        &self,
        alloc: Global,
        planes: &[Plane],
        rect: Rect,
        workspace: &mut Workspace,
    ) -> Result<Snapshot, AllocError>
        requires layout { HasLayout workspace.old.pool planes.now self.now.uses.library.now }
        ensures legal { IsRectangleIn world rect }
        ensures zone { IfOk result (λ snapshot. snapshot.zone ≡ zone_of self.now.rules.now rect) }
        ensures copied { IfOk result (λ snapshot. copied_layout snapshot ≡ within (zone_of self.now.rules.now rect)
            (flat_layout workspace.old.pool self.now.uses planes.now)) }
        ensures pool { workspace.new.pool ≡ workspace.old.pool }
    {
        lies_in_world(rect);
        let zone = rect.grow(self.rules.halo());
        let mut snapshot = Snapshot::read(alloc, planes, &self.uses, zone, workspace)?;
        snapshot.stitch(alloc)?;
        Ok(snapshot)
    }
}
