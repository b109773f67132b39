//! Commands on the box.
ghost use Rattle.std.specs.Prelude.{◌≡◌, [], IfOk, IsOk, None, length, All};
ghost use Rattle.mls_session.specs.Common.{FitsWorkspace, HasPlane, Pool, flat_layout};
ghost use Rattle.mls_library.specs.Libraries.{IsHome as AreCellsHome};
ghost use Rattle.mls_session.specs.Own.{Config, box_step, edit_step, types_in};
ghost use Rattle.mls_session.specs.Inner.{StepsTo};
ghost use Rattle.mls_session.specs.OwnSteps.{DesignSteps};
ghost use Rattle.mls_session.specs.Setups.{config_of};

use super::Design;
use crate::{Command, Refusal, Reply, Setup};
use mls_geom::{Piece, Rect, RectFault};
use mls_kinds::{Kind, KindSet};
use mls_layout::{Uses, Workspace, kinds};
use mls_paint::overlay;
use mls_stitch::Plane;
use std::alloc::{AllocError, Global};

impl Design {
    ghost use Rattle.mls_session.specs.Designs.{IsHome, IsMadeFor, IsReady, KeepsPlanes, OnRefused, designed_of, drawn_of};

    /// Sets the box, or refuses it by the fault of its lines.
    pub fn set_box(&mut self, made: Result<Rect, RectFault>) -> Reply
        ensures step { (pool : Pool) (config : Config)
            → edit_step config (designed_of pool self.old) None (box_step (drawn_of pool self.old) made)
            ≡ (designed_of pool self.new, result) }
        ensures planes { self.new.planes ≡ self.old.planes }
        ensures uses { self.new.uses ≡ self.old.uses }
        ensures quota { self.new.quota ≡ self.old.quota }
        ensures errors { self.new.errors ≡ self.old.errors }
        ensures refused { OnRefused result (self.new ≡ self.old) }
    {
        match made {
            Ok(rect) => {
                self.box_rect = Some(rect);
                Reply::Done
            }
            Err(RectFault::Empty) => Reply::Refused(Refusal::EmptyBox),
            Err(RectFault::Outside) => Reply::Refused(Refusal::OutsideWorld),
        }
    }

    /// Paints the box with a type, on the type's plane, unless this would then have more tiles than the quota.
    #[tactic(auto, unfolding(crate::specs::OwnSteps::design_step))]
    pub fn paint(&mut self, setup: &Setup, kind: Option<Kind>, workspace: &mut Workspace) -> Reply
        requires home { IsHome workspace.old.pool self.old }
        requires made_for { IsMadeFor setup.now self.old }
        ensures step { StepsTo setup.now workspace.old.pool workspace.new.pool self.old (Command.Paint kind)
            result self.new }
        ensures keeps { KeepsPlanes workspace.old.pool workspace.new.pool self.old self.new }
        ensures refused { OnRefused result ((self.new ≡ self.old) × (workspace.new.pool ≡ workspace.old.pool)) }
    {
        let Some(rect) = self.box_rect else {
            return Reply::Refused(Refusal::NoBox);
        };
        let Some(kind) = kind else {
            return Reply::Refused(Refusal::UnknownType);
        };
        let Some(plane) = setup.tech.plane_of(kind) else {
            return Reply::Refused(Refusal::UnknownType);
        };
        let Workspace {
            pool,
            scratch,
            pieces,
            ..
        } = workspace;
        pieces.clear();
        pieces.push_reserved(Piece { rect, kind });
        let limit = self.quota.get();
        let plane = &mut self.planes[plane.index()];
        let Ok(_) = overlay(pool, plane, pieces, limit, scratch) else {
            return Reply::Refused(Refusal::Quota);
        };
        self.errors.add(&setup.rules, rect);
        Reply::Done
    }

    /// Returns the types in the box, space among them, in the layout as it is now.
    ///
    /// Runs out of memory only where cells are placed.
    #[tactic(auto, unfolding(crate::specs::OwnSteps::design_step))]
    pub fn what(&self, alloc: Global, setup: &Setup, workspace: &mut Workspace) -> Reply
        requires ready { IsReady setup.now workspace.old.pool self.now }
        ensures step { DesignSteps (config_of setup.now workspace.old.pool)
            (designed_of workspace.old.pool self.now) Command.What result (designed_of workspace.old.pool self.now) }
        ensures pool { workspace.new.pool ≡ workspace.old.pool }
    {
        let Some(rect) = self.box_rect else {
            return Reply::Refused(Refusal::NoBox);
        };
        let context = setup.context(&self.uses);
        match types_in(alloc, &self.planes, &context.uses, rect, workspace) {
            Ok(found) => Reply::Kinds(found),
            Err(_) => Reply::Refused(Refusal::Memory),
        }
    }
}

/// Returns the types in a rectangle, space among them, in the layout on these planes with the uses.
///
/// Runs out of memory only where there are uses.
fn types_in(
    alloc: Global,
    planes: &[Plane],
    uses: &Uses<'_>,
    rect: Rect,
    workspace: &mut Workspace,
) -> Result<KindSet, AllocError>
    requires planes { All (HasPlane workspace.old.pool) planes.now }
    requires planes_fit { All (FitsWorkspace workspace.old.pool) planes.now }
    requires cells { AreCellsHome workspace.old.pool uses.now.library.now }
    ensures value { IfOk result (λ found. found
        ≡ types_in (length planes.now) (flat_layout workspace.old.pool uses.now planes.now) rect) }
    ensures without_uses { uses.now.list.now ≡ [] → IsOk result }
    ensures pool { workspace.new.pool ≡ workspace.old.pool }
{
    let mut found = KindSet::empty();
    for number in 0..planes.len() {
        let more = kinds(alloc, number, &planes[number], uses, rect, workspace)?;
        found = found.union(more);
    }
    Ok(found)
}
