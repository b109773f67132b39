//! Commands on what awaits checking, and on the marks.
ghost use Rattle.std.specs.Prelude.{◌≡◌, ◌<◌, ◌≤◌, IfErr, IfOk, OnOk, length};
ghost use Rattle.mls_session.specs.Common.{AreRightIn, HasFinished, HasGrabbed, HasStepped, IfTooMany, IsDirtyList, Pool, Steps, UnlessDone, UnlessFinished, checking_of, strip_count, violated_rules, violations_in};
ghost use Rattle.mls_session.specs.Inner.{Counts, KeepsDrawn, caught_up_reply, layout_shown, steps_of};
ghost use Rattle.mls_session.specs.Own.{count_step, dirty_after};
ghost use Rattle.mls_session.specs.OwnSteps.{DesignSteps, design_step};
ghost use Rattle.mls_session.specs.Setups.{config_of};

use super::Design;
use crate::executed::Executed;
use crate::{Command, Refusal, Reply, Setup};
use mls_checker::Finding;
use mls_edgerule::{RuleSet, Rules};
use mls_errorplane::{CaughtUp, Checked, Job, Outcome, Stepped, Violation, violations, why};
use mls_geom::Rect;
use mls_layout::{Unlisted, Workspace};
use std::alloc::{AllocError, Global};

impl Design {
    ghost use Rattle.mls_session.specs.Designs.{IsHome, IsReady, KeepsPlanes, OnRefused, designed_of};

    /// Adds the box to the areas that await checking.
    #[tactic(auto, unfolding(crate::specs::OwnSteps::design_step))]
    pub fn check(&mut self, setup: &Setup) -> Reply
        ensures step { (pool : Pool) → design_step (config_of setup.now pool)
            (designed_of pool self.old) Command.Check ≡ (designed_of pool self.new, result) }
        ensures planes { self.new.planes ≡ self.old.planes }
        ensures quota { self.new.quota ≡ self.old.quota }
        ensures owner { self.new.errors.owner ≡ self.old.errors.owner }
        ensures marked { self.new.errors.marked ≡ self.old.errors.marked }
        ensures refused { OnRefused result (self.new ≡ self.old) }
    {
        let Some(rect) = self.box_rect else {
            return Reply::Refused(Refusal::NoBox);
        };
        self.mark_dirty(&setup.rules, Some(rect));
        Reply::Done
    }

    /// Adds the rectangle that an edit changed, if it changed one, to the areas that await checking.
    pub(super) fn mark_dirty(&mut self, rules: &Rules, rect: Option<Rect>)
        ensures checking { (pool : Pool) → checking_of pool self.new.errors
            ≡ dirty_after rules.now rect Reply.Done (checking_of pool self.old.errors) }
        ensures same { self.new ≡ record self.old { errors = self.new.errors } }
        ensures owner { self.new.errors.owner ≡ self.old.errors.owner }
        ensures marked { self.new.errors.marked ≡ self.old.errors.marked }
    {
        if let Some(rect) = rect {
            self.errors.add(rules, rect);
        }
    }

    /// Returns what a check of the first piece of the areas that await checking needs, if there is an area.
    pub fn grab(
        &self,
        alloc: Global,
        setup: &Setup,
        workspace: &mut Workspace,
    ) -> Result<Option<Job>, AllocError>
        requires ready { IsReady setup.now workspace.old.pool self.now }
        ensures grabbed { HasGrabbed setup.now.rules (length self.now.planes)
            (layout_shown setup.now workspace.old.pool self.now) (checking_of workspace.old.pool self.now.errors)
            result }
        ensures pool { workspace.new.pool ≡ workspace.old.pool }
    {
        let context = setup.context(&self.uses);
        let planes = &self.planes;
        self.errors.grab(alloc, planes, &context, workspace)
    }

    /// Checks the first piece of the areas that await checking, and takes it out of them.
    ///
    /// Unless this is done, nothing changes.
    pub fn step(&mut self, alloc: Global, setup: &Setup, workspace: &mut Workspace) -> Stepped
        requires ready { IsReady setup.now workspace.old.pool self.old }
        ensures stepped { HasStepped setup.now.rules (layout_shown setup.now workspace.old.pool self.old) self.old.quota
            (checking_of workspace.old.pool self.old.errors) result (checking_of workspace.new.pool self.new.errors) }
        ensures unless_done { UnlessDone result (workspace.new.pool ≡ workspace.old.pool) }
        ensures keeps { KeepsDrawn workspace.old.pool workspace.new.pool self.old self.new }
    {
        let limit = self.quota.get();
        let context = setup.context(&self.uses);
        let planes = &self.planes;
        self.errors.step(alloc, planes, &context, limit, workspace)
    }

    /// Marks what a finding says of its piece, unless it is stale, and takes the piece out of the areas.
    ///
    /// Unless this is finished, nothing changes. No memory is taken.
    pub fn finish(&mut self, setup: &Setup, finding: &Finding, workspace: &mut Workspace) -> Outcome
        requires ready { IsReady setup.now workspace.old.pool self.old }
        ensures finished { HasFinished setup.now.rules (length self.old.planes)
            (layout_shown setup.now workspace.old.pool self.old) self.old.quota
            (checking_of workspace.old.pool self.old.errors) finding.now result
            (checking_of workspace.new.pool self.new.errors) }
        ensures unless_finished { UnlessFinished result (workspace.new.pool ≡ workspace.old.pool) }
        ensures keeps { KeepsDrawn workspace.old.pool workspace.new.pool self.old self.new }
    {
        let limit = self.quota.get();
        let context = setup.context(&self.uses);
        let planes = &self.planes;
        self.errors
            .finish(planes, &context, finding, limit, workspace)
    }

    /// Takes the next pieces whose marks are known to be right out of the areas that await checking, and returns how
    /// many. No memory is taken.
    pub fn settle(&mut self, setup: &Setup, checked: &mut Checked, workspace: &mut Workspace) -> u64
        requires ready { IsReady setup.now workspace.old.pool self.old }
        requires right { AreRightIn setup.now.rules (layout_shown setup.now workspace.old.pool self.old)
            (checking_of workspace.old.pool self.old.errors).marks checked.old }
        ensures steps { Steps setup.now.rules (layout_shown setup.now workspace.old.pool self.old) self.old.quota result
            (checking_of workspace.old.pool self.old.errors) (checking_of workspace.new.pool self.new.errors) }
        ensures right { AreRightIn setup.now.rules (layout_shown setup.now workspace.old.pool self.old)
            (checking_of workspace.new.pool self.new.errors).marks checked.new }
        ensures keeps { KeepsDrawn workspace.old.pool workspace.new.pool self.old self.new }
    {
        let limit = self.quota.get();
        let context = setup.context(&self.uses);
        let planes = &self.planes;
        self.errors
            .settle(planes, &context, checked, limit, workspace)
    }

    /// Checks all areas that await checking, piece by piece.
    pub fn catch_up(&mut self, alloc: Global, setup: &Setup, workspace: &mut Workspace) -> Executed
        requires ready { IsReady setup.now workspace.old.pool self.old }
        requires areas { IsDirtyList self.old.errors.dirty }
        ensures caught { DesignSteps (config_of setup.now workspace.old.pool)
            (designed_of workspace.old.pool self.old) Command.CatchUp result.reply
            (designed_of workspace.new.pool self.new) }
        ensures counts { Counts (config_of setup.now workspace.old.pool)
            (designed_of workspace.old.pool self.old) Command.CatchUp result
            (designed_of workspace.new.pool self.new) }
        ensures keeps { KeepsPlanes workspace.old.pool workspace.new.pool self.old self.new }
        ensures not_refused { OnRefused result.reply ((self.new ≡ self.old)
            × (workspace.new.pool ≡ workspace.old.pool)) }
    {
        let limit = self.quota.get();
        let context = setup.context(&self.uses);
        let planes = &self.planes;
        let ended = self
            .errors
            .catch_up(alloc, planes, &context, limit, workspace);
        let pending = self.errors.areas();
        result_of(ended, pending)
    }

    /// Returns the rules that forbid some square of the box.
    #[tactic(auto, unfolding(crate::specs::OwnSteps::design_step))]
    pub fn why(&self, alloc: Global, setup: &Setup, workspace: &mut Workspace) -> Reply
        requires ready { IsReady setup.now workspace.old.pool self.now }
        ensures why { DesignSteps (config_of setup.now workspace.old.pool)
            (designed_of workspace.old.pool self.now) Command.Why result (designed_of workspace.old.pool self.now) }
        ensures pool { workspace.new.pool ≡ workspace.old.pool }
    {
        let Some(rect) = self.box_rect else {
            return Reply::Refused(Refusal::NoBox);
        };
        match self.why_in(alloc, setup, rect, workspace) {
            Ok(violated) => Reply::Why(violated),
            Err(_) => Reply::Refused(Refusal::Memory),
        }
    }

    /// Returns the rules that forbid some square of a rectangle.
    pub fn why_in(
        &self,
        alloc: Global,
        setup: &Setup,
        rect: Rect,
        workspace: &mut Workspace,
    ) -> Result<RuleSet, AllocError>
        requires ready { IsReady setup.now workspace.old.pool self.now }
        ensures value { IfOk result (λ violated. violated ≡ violated_rules setup.now.rules rect
            (layout_shown setup.now workspace.old.pool self.now)) }
        ensures pool { workspace.new.pool ≡ workspace.old.pool }
    {
        let context = setup.context(&self.uses);
        why(alloc, &self.planes, &context, rect, workspace)
    }

    /// Returns what each rule forbids in a rectangle, by rising number.
    ///
    /// Fails where the rules forbid squares in more strips than a plane may have tiles, or memory runs out.
    pub fn violations_in(
        &self,
        alloc: Global,
        setup: &Setup,
        rect: Rect,
        workspace: &mut Workspace,
    ) -> Result<Vec<Violation>, Unlisted>
        requires ready { IsReady setup.now workspace.old.pool self.now }
        ensures value { IfOk result (λ found. found.items ≡ violations_in setup.now.rules rect
            (layout_shown setup.now workspace.old.pool self.now)) }
        ensures few { OnOk result (strip_count (violations_in setup.now.rules rect
            (layout_shown setup.now workspace.old.pool self.now)) ≤ setup.now.quota) }
        ensures too_many { IfErr result (λ fault. IfTooMany fault (setup.now.quota < strip_count (violations_in
            setup.now.rules rect (layout_shown setup.now workspace.old.pool self.now)))) }
        ensures pool { workspace.new.pool ≡ workspace.old.pool }
    {
        let context = setup.context(&self.uses);
        let most = setup.quota.get() as usize;
        violations(alloc, &self.planes, &context, rect, most, workspace)
    }

    /// Returns how many squares are marked, and how many areas await checking.
    #[tactic(auto, unfolding(crate::specs::Own::total_marks, mls_errorplane::specs::MarkPlanes::marked_count))]
    pub fn count(&self) -> Reply
        ensures { (pool : Pool) → IsHome pool self.now
            → count_step (designed_of pool self.now) ≡ (designed_of pool self.now, result) }
    {
        let errors = self.errors.marked();
        let pending = self.errors.areas();
        Reply::Count { errors, pending }
    }
}

/// Returns the result of catching up that ended so, with this many areas left.
fn result_of(ended: CaughtUp, pending: usize) -> Executed
    ensures reply { result.reply ≡ caught_up_reply pending ended }
    ensures steps { result.steps ≡ steps_of ended }
{
    match ended {
        CaughtUp::Done => Executed::with(Reply::Done),
        CaughtUp::Full => {
            let refusal = Refusal::Quota;
            Executed::with(Reply::Stopped { refusal, pending })
        }
        CaughtUp::Memory { steps } => {
            let refusal = Refusal::Memory;
            let reply = Reply::Stopped { refusal, pending };
            Executed { reply, steps }
        }
    }
}
