//! Commands that change several planes: all of them, or none.
ghost use Rattle.std.specs.Prelude.{◌≡◌, ◌<◌, ◌≤◌, IsTrue, not, length, ℕ};
ghost use Rattle.mls_session.specs.Common.{ChangesAmong, layout_in, most_planes};
ghost use Rattle.mls_session.specs.Inner.{ArePlanned, CanChange, FitsQuota, ListsChange, ReadsAtMost, StepsTo, changed_layout, painted_over, planned_pieces};
ghost use Rattle.mls_session.specs.Own.{Config, are_types, change_step, edit_step, exceeds_quota};
ghost use Rattle.mls_session.specs.Setups.{config_of};

use super::Design;
use crate::change::Change;
use crate::moving::placed_bounds;
use crate::{Command, Refusal, Reply, Setup};
use mls_geom::Rect;
use mls_kinds::KindSet;
use mls_layout::{CellUse, MOST_PLANES, MOST_USES, Workspace};
use mls_library::CellId;
use mls_paint::{commit, plan};
use mls_tech::Tech;

impl Design {
    ghost use Rattle.mls_session.specs.Designs.{AreAtHome, IsHome, IsMadeFor, IsReady, KeepsPlanes, OnRefused, designed_of, drawn_of};

    /// Erases types in the box, on each plane.
    #[tactic(auto, unfolding(crate::specs::OwnSteps::design_step))]
    pub fn erase(
        &mut self,
        setup: &Setup,
        kinds: Option<KindSet>,
        workspace: &mut Workspace,
    ) -> Reply
        requires home { IsHome workspace.old.pool self.old }
        requires made_for { IsMadeFor setup.now self.old }
        ensures step { StepsTo setup.now workspace.old.pool workspace.new.pool self.old (Command.Erase kinds)
            result self.new }
        ensures keeps { KeepsPlanes workspace.old.pool workspace.new.pool self.old self.new }
        ensures refused { OnRefused result ((self.new ≡ self.old) × (workspace.new.pool ≡ workspace.old.pool)) }
    {
        let Some(rect) = self.box_rect else {
            return Reply::Refused(Refusal::NoBox);
        };
        let Some(kinds) = kinds else {
            return Reply::Refused(Refusal::UnknownType);
        };
        if !has_types(&setup.tech, kinds) {
            return Reply::Refused(Refusal::UnknownType);
        }
        self.change(setup, &Change::Erase { rect, kinds }, Some(rect), workspace)
    }

    /// Dumps a cell of the library, moved to the right by `dx` and up by `dy`, on all planes.
    #[tactic(auto, unfolding(crate::specs::OwnSteps::design_step))]
    pub fn dump(
        &mut self,
        setup: &Setup,
        cell: Option<CellId>,
        dx: i32,
        dy: i32,
        workspace: &mut Workspace,
    ) -> Reply
        requires ready { IsReady setup.now workspace.old.pool self.old }
        ensures step { StepsTo setup.now workspace.old.pool workspace.new.pool self.old (Command.Dump cell dx dy)
            result self.new }
        ensures keeps { KeepsPlanes workspace.old.pool workspace.new.pool self.old self.new }
        ensures refused { OnRefused result ((self.new ≡ self.old) × (workspace.new.pool ≡ workspace.old.pool)) }
    {
        let Some(id) = cell else {
            return Reply::Refused(Refusal::UnknownCell);
        };
        let Some(cell) = setup.library.get(id) else {
            return Reply::Refused(Refusal::UnknownCell);
        };
        let planes = cell.planes();
        let rect = match placed_bounds(cell.bounds(), dx, dy) {
            Ok(rect) => rect,
            Err(refusal) => return Reply::Refused(refusal),
        };
        self.change(setup, &Change::Dump { planes, dx, dy }, rect, workspace)
    }

    /// Places a cell of the library, moved to the right by `dx` and up by `dy`.
    #[tactic(auto, unfolding(crate::specs::OwnSteps::design_step))]
    pub fn get_cell(
        &mut self,
        setup: &Setup,
        cell: Option<CellId>,
        dx: i32,
        dy: i32,
        workspace: &mut Workspace,
    ) -> Reply
        requires ready { IsReady setup.now workspace.old.pool self.old }
        ensures step { StepsTo setup.now workspace.old.pool workspace.new.pool self.old (Command.GetCell cell dx dy)
            result self.new }
        ensures keeps { KeepsPlanes workspace.old.pool workspace.new.pool self.old self.new }
        ensures refused { OnRefused result ((self.new ≡ self.old) × (workspace.new.pool ≡ workspace.old.pool)) }
    {
        let Some(id) = cell else {
            return Reply::Refused(Refusal::UnknownCell);
        };
        let Some(cell) = setup.library.get(id) else {
            return Reply::Refused(Refusal::UnknownCell);
        };
        let rect = match placed_bounds(cell.bounds(), dx, dy) {
            Ok(rect) => rect,
            Err(refusal) => return Reply::Refused(refusal),
        };
        if self.uses.len() >= MOST_USES {
            return Reply::Refused(Refusal::TooManyUses);
        }
        self.uses.push_reserved(CellUse { cell: id, dx, dy });
        self.mark_dirty(&setup.rules, rect);
        Reply::Done
    }

    /// Makes a change on all planes, unless one of them would then have more tiles than the quota. The rectangle that
    /// it changes, if there is one, awaits checking then.
    fn change(
        &mut self,
        setup: &Setup,
        change: &Change<'_>,
        rect: Option<Rect>,
        workspace: &mut Workspace,
    ) -> Reply
        requires home { IsHome workspace.old.pool self.old }
        requires made_for { IsMadeFor setup.now self.old }
        requires can_change { CanChange workspace.old.pool change.now }
        requires planes { ReadsAtMost (length self.old.planes) change.now }
        ensures step { edit_step (config_of setup.now workspace.old.pool)
            (designed_of workspace.old.pool self.old) rect
            (change_step (config_of setup.now workspace.old.pool) (drawn_of workspace.old.pool self.old)
            (changed_layout workspace.old.pool change.now (drawn_of workspace.old.pool self.old).paint))
            ≡ (designed_of workspace.new.pool self.new, result) }
        ensures keeps { KeepsPlanes workspace.old.pool workspace.new.pool self.old self.new }
        ensures refused { OnRefused result ((self.new ≡ self.old) × (workspace.new.pool ≡ workspace.old.pool)) }
    {
        prove!(setup.tech.planes() <= MOST_PLANES);
        if !self.plan_change(change, workspace) {
            return Reply::Refused(Refusal::Quota);
        }
        self.commit_change(workspace);
        self.mark_dirty(&setup.rules, rect);
        Reply::Done
    }

    /// Plans what a change paints on each plane, and returns whether no plane would have more tiles than the quota then.
    fn plan_change(&self, change: &Change<'_>, workspace: &mut Workspace) -> bool
        requires home { IsHome workspace.old.pool self.now }
        requires few_planes { length self.now.planes ≤ most_planes }
        requires can_change { CanChange workspace.old.pool change.now }
        ensures fits { (config : Config) → config.tech.plane_count ≡ length self.now.planes
            → config.quota ≡ self.now.quota
            → result ≡ not (exceeds_quota config
            (changed_layout workspace.old.pool change.now (drawn_of workspace.old.pool self.now).paint)) }
        ensures lists { IsTrue result → ListsChange workspace.old.pool change.now (length self.now.planes)
            (drawn_of workspace.old.pool self.now).paint (planned_pieces workspace.new.scratch) }
        ensures planned { IsTrue result → ArePlanned workspace.old.pool self.now.planes (length self.now.planes)
            workspace.new.scratch }
        ensures pool { workspace.new.pool ≡ workspace.old.pool }
    {
        let limit = self.quota.get();
        for i in 0..self.planes.len() {
            let Workspace {
                pool,
                scratch,
                pieces,
                ..
            } = workspace;
            let plane = &self.planes[i];
            change.list_pieces(pool, i, plane, pieces, scratch);
            let Ok(()) = plan(pool, plane, pieces, limit, i, scratch) else {
                return false;
            };
        }
        true
    }

    /// Paints each plane by its plan. No plane has more tiles than the quota then.
    fn commit_change(&mut self, workspace: &mut Workspace)
        requires home { IsHome workspace.old.pool self.old }
        requires few_planes { length self.old.planes ≤ most_planes }
        requires planned { ArePlanned workspace.old.pool self.old.planes (length self.old.planes)
            workspace.old.scratch }
        requires fits { FitsQuota (length self.old.planes) self.old.quota
            (painted_over (planned_pieces workspace.old.scratch) (drawn_of workspace.old.pool self.old).paint) }
        ensures layout { (plane : ℕ) → plane < length self.old.planes
            → layout_in workspace.new.pool self.old.planes plane
            ≡ painted_over (planned_pieces workspace.old.scratch) (drawn_of workspace.old.pool self.old).paint plane }
        ensures home { AreAtHome workspace.new.pool self.old.quota self.old.planes }
        ensures only { ChangesAmong workspace.old.pool workspace.new.pool self.old.planes }
        ensures same { self.new ≡ self.old }
    {
        for i in 0..self.planes.len() {
            let Workspace { pool, scratch, .. } = workspace;
            let plane = &mut self.planes[i];
            commit(pool, plane, i, scratch);
        }
    }
}

/// Returns whether the technology has all these types.
fn has_types(tech: &Tech, kinds: KindSet) -> bool
    ensures { result ≡ are_types tech.now kinds }
{
    let types = tech.types();
    kinds.iter().all(|kind| usize::from(kind.number()) <= types)
}
