//! Check steps of a session, and what a check outside it needs and leads to.
ghost use Rattle.std.specs.Prelude.{◌≡◌, length};
ghost use Rattle.mls_session.specs.Common.{HasGrabbed, UnlessDone, UnlessFinished};
ghost use Rattle.mls_session.specs.Designs.{KnowsRight};
ghost use Rattle.mls_session.specs.Inner.{done_steps, finished_steps};
ghost use Rattle.mls_session.specs.Journals.{ChecksTimes, Finishes, StepsOnce, StepsUpTo};
ghost use Rattle.mls_session.specs.Own.{layout_of};
ghost use Rattle.mls_session.specs.Setups.{config_of, terms_of};

use super::Session;
use crate::{Setup, StepRun};
use mls_checker::Finding;
use mls_errorplane::{Checked, Job, Outcome, Stepped};
use mls_layout::Workspace;
use std::alloc::{AllocError, Global};

impl Session {
    ghost use Rattle.mls_session.specs.Sessions.{IsReady, StaysSound, kept_of, state_of};

    /// Returns what a check of the first piece of the areas that await checking needs, if there is an area. Nothing
    /// changes.
    pub fn grab(
        &self,
        alloc: Global,
        setup: &Setup,
        workspace: &mut Workspace,
    ) -> Result<Option<Job>, AllocError>
        requires ready { IsReady setup.now workspace.old.pool self.now }
        ensures grabbed { HasGrabbed setup.now.rules (length self.now.design.planes)
            (layout_of (config_of setup.now workspace.old.pool)
            (state_of workspace.old.pool self.now).design.drawn)
            (state_of workspace.old.pool self.now).design.checking result }
        ensures pool { workspace.new.pool ≡ workspace.old.pool }
    {
        self.design.grab(alloc, setup, workspace)
    }

    /// Checks the first piece of the areas that await checking, and takes it out of them.
    ///
    /// Unless this is done, nothing changes.
    pub fn step(&mut self, alloc: Global, setup: &Setup, workspace: &mut Workspace) -> Stepped
        requires ready { IsReady setup.now workspace.old.pool self.old }
        ensures stepped { StepsOnce (terms_of setup.now workspace.old.pool)
            (kept_of workspace.old.pool self.old) result (kept_of workspace.new.pool self.new) }
        ensures sound { StaysSound setup.now workspace.old.pool workspace.new.pool self.old self.new }
        ensures unless_done { UnlessDone result (workspace.new.pool ≡ workspace.old.pool) }
    {
        let stepped = self.design.step(alloc, setup, workspace);
        self.journal.count(done_steps(stepped));
        stepped
    }

    /// Does check steps one after another, until so many are done or one isn't.
    ///
    /// The steps that were done stay so, and each is counted. One that isn't done changes nothing.
    pub fn run_steps(
        &mut self,
        alloc: Global,
        setup: &Setup,
        most: u64,
        workspace: &mut Workspace,
    ) -> StepRun
        requires ready { IsReady setup.now workspace.old.pool self.old }
        ensures stepped { StepsUpTo (terms_of setup.now workspace.old.pool) most
            (kept_of workspace.old.pool self.old) result (kept_of workspace.new.pool self.new) }
        ensures sound { StaysSound setup.now workspace.old.pool workspace.new.pool self.old self.new }
    {
        for done in 0..most {
            match self.step(alloc, setup, workspace) {
                Stepped::Done => {}
                ended => return StepRun { done, ended },
            }
        }
        StepRun {
            done: most,
            ended: Stepped::Done,
        }
    }

    /// Marks what a finding says of its piece, and takes the piece out of the areas that await checking, if the
    /// finding is by the setup's rules and of the first piece, and the layout is still the one in which it was found;
    /// it is stale otherwise.
    ///
    /// Unless this is finished, nothing changes. No memory is taken.
    ///
    /// The marks must be right in the rectangles of `checked`, and are so in those that it has afterwards, where that
    /// of a finished piece is one.
    pub fn finish(
        &mut self,
        setup: &Setup,
        finding: &Finding,
        checked: &mut Option<Checked>,
        workspace: &mut Workspace,
    ) -> Outcome
        requires ready { IsReady setup.now workspace.old.pool self.old }
        requires knows { KnowsRight (config_of setup.now workspace.old.pool)
            (state_of workspace.old.pool self.old).design checked.old }
        ensures finished { Finishes (terms_of setup.now workspace.old.pool)
            (kept_of workspace.old.pool self.old) finding.now result (kept_of workspace.new.pool self.new) }
        ensures sound { StaysSound setup.now workspace.old.pool workspace.new.pool self.old self.new }
        ensures knows { KnowsRight (config_of setup.now workspace.old.pool)
            (state_of workspace.new.pool self.new).design checked.new }
        ensures unless_finished { UnlessFinished result (workspace.new.pool ≡ workspace.old.pool) }
    {
        let outcome = self.design.finish(setup, finding, workspace);
        self.journal.count(finished_steps(outcome));
        *checked = Checked::after_finding(*checked, finding, outcome);
        outcome
    }

    /// Takes the next pieces whose marks are known to be right out of the areas that await checking, and returns how
    /// many: each counts as a check step. Without `checked`, none is taken.
    ///
    /// The marks must be right in the rectangles of `checked`, and are so in those that it has afterwards. No memory is
    /// taken.
    pub fn settle(
        &mut self,
        setup: &Setup,
        checked: &mut Option<Checked>,
        workspace: &mut Workspace,
    ) -> u64
        requires ready { IsReady setup.now workspace.old.pool self.old }
        requires knows { KnowsRight (config_of setup.now workspace.old.pool)
            (state_of workspace.old.pool self.old).design checked.old }
        ensures settled { ChecksTimes (terms_of setup.now workspace.old.pool) result
            (kept_of workspace.old.pool self.old) (kept_of workspace.new.pool self.new) }
        ensures sound { StaysSound setup.now workspace.old.pool workspace.new.pool self.old self.new }
        ensures knows { KnowsRight (config_of setup.now workspace.old.pool)
            (state_of workspace.new.pool self.new).design checked.new }
    {
        let Some(known) = checked else {
            return 0;
        };
        let steps = self.design.settle(setup, known, workspace);
        self.journal.count(steps);
        steps
    }
}

/// Returns how many check steps were done.
fn done_steps(stepped: Stepped) -> u64
    ensures { result ≡ done_steps stepped }
{
    match stepped {
        Stepped::Done => 1,
        Stepped::Idle | Stepped::Full | Stepped::Memory => 0,
    }
}

/// Returns how many check steps were done where a finding was finished so.
fn finished_steps(outcome: Outcome) -> u64
    ensures { result ≡ finished_steps outcome }
{
    match outcome {
        Outcome::Finished => 1,
        Outcome::Stale | Outcome::Full => 0,
    }
}
