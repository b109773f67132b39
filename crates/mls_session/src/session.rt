//! Sessions: what each command and each check step does to a design, and what the journal keeps of it.
ghost use Rattle.std.specs.Prelude.{◌≡◌, ◌*◌, ◌+◌, ◌++◌, ◌≤◌, ◌<◌, IfOk, OnErr, List, ℕ, length, vec_capacity, vec_len};
ghost use Rattle.mls_session.specs.Common.{AddsOwners, ReadsAs, RemovesOwners, cell_layouts, saved_text, unreserved};
ghost use Rattle.mls_library.specs.Libraries as library_spec;
ghost use Rattle.mls_session.specs.Designs.{HasRightMarks, OnRefused};
ghost use Rattle.mls_session.specs.Journals.{Commands, IsLegal, Saves, kept_at_opening};
ghost use Rattle.mls_session.specs.Quotas.{plane_reserve};
ghost use Rattle.mls_session.specs.Saving.{OnSaved};
ghost use Rattle.mls_session.specs.Setups.{config_of, terms_of};
ghost use Rattle.mls_session.specs.OwnSteps.{HaveOwnCells};
ghost use Rattle.mls_session.specs.declared.refusal.Refusal.TheVariants.{Memory};
ghost use Rattle.mls_session.specs.declared.reply.Reply.TheVariants.{Refused};

mod checking;
mod looking;

use crate::design::Design;
use crate::executed::Executed;
use crate::journal::Journal;
use crate::{Command, Entry, Refusal, Reply, Setup};
use mls_layout::Workspace;
use mls_tilepool::Pool;
use std::alloc::{AllocError, Global};
use std::marker::Model;

/// A session: a design, which commands change and check, and a journal of commands and their replies.
///
/// The tiles of its planes lie in the pool of a workspace, which is lent to one call at a time, as is the setup with
/// which the session was opened.
#[derive(Drop)]
pub struct Session {
    design: Design,
    journal: Journal,
}

impl Model for Session {
    ghost use Rattle.mls_session.specs.Inner.{IsCounted};
    ghost use Rattle.mls_session.specs.Sessions.{Session};

    ghost Value = { Session };

    ghost view = { λ s. record {
      design = s.design;
      journal = s.journal.entries;
      limit = s.journal.limit;
      checks = s.journal.checks;
    } };

    ghost invariant = { λ s. IsCounted s.design.errors.dirty s.journal.checks };
}

impl Session {
    ghost use Rattle.mls_session.specs.Sessions.{IsHome, IsMadeFor, IsReady, StaysSound, kept_of, owners_of, state_of};

    /// Opens a session with no box, no paint, no uses, no marks and an empty journal. Nothing awaits checking, unless
    /// the rules forbid squares of the empty layout.
    ///
    /// Each plane, and the error plane, reserves 64 tiles more than the quota. The pool must have room for them.
    pub fn open(
        alloc: Global,
        setup: &Setup,
        workspace: &mut Workspace,
    ) -> Result<Session, AllocError>
        requires room { (setup.now.tech.plane_count + 1) * plane_reserve setup.now.quota
            ≤ unreserved workspace.old.pool }
        ensures opening { IfOk result (λ session. kept_of workspace.new.pool session
            ≡ kept_at_opening setup.now.rules) }
        ensures marks_right { IfOk result (λ session. HasRightMarks (config_of setup.now workspace.new.pool)
            (state_of workspace.new.pool session).design) }
        ensures home { IfOk result (λ session. IsHome workspace.new.pool session) }
        ensures made_for { IfOk result (λ session. IsMadeFor setup.now session) }
        ensures added { IfOk result (λ session. AddsOwners workspace.old.pool workspace.new.pool (owners_of session)
            (length (owners_of session) * plane_reserve setup.now.quota)) }
        ensures refused { OnErr result (workspace.new.pool ≡ workspace.old.pool) }
    {
        let journal = Journal::with_limit(alloc, setup.limit)?;
        let design = Design::open(alloc, setup, workspace)?;
        Ok(Session { design, journal })
    }

    /// Closes the session: removes all tiles of its planes, and gives their reserves back.
    ///
    /// No memory is taken.
    pub fn close(self, pool: &mut Pool)
        requires home { IsHome pool.old self }
        ensures removed { RemovesOwners pool.old pool.new (owners_of self)
            (length (owners_of self) * plane_reserve self.design.quota) }
    {
        self.design.close(pool);
    }

    /// Carries out a command, or refuses it and changes nothing of the design. Only catching up that stops before its
    /// end keeps what it did.
    ///
    /// Types are those of the setup's technology, and cells those of its library. Pass the setup that the session was
    /// opened with: another technology with as many planes may put a type on another plane, and marks are right by
    /// one list of rules and one library alone.
    ///
    /// Unless the journal is full or memory runs out, the command and its reply go into the journal. Only
    /// [`Command::Why`] and [`Command::CatchUp`] allocate, for one piece at a time, and [`Command::What`] where cells
    /// are placed.
    pub fn command(
        &mut self,
        alloc: Global,
        setup: &Setup,
        command: Command,
        workspace: &mut Workspace,
    ) -> Reply
        requires ready { IsReady setup.now workspace.old.pool self.old }
        ensures step { Commands (terms_of setup.now workspace.old.pool)
            (kept_of workspace.old.pool self.old) command result (kept_of workspace.new.pool self.new) }
        ensures sound { StaysSound setup.now workspace.old.pool workspace.new.pool self.old self.new }
        ensures cells_home { library_spec.IsHome workspace.new.pool setup.now.library }
        ensures cells { cell_layouts workspace.new.pool setup.now.library
            ≡ cell_layouts workspace.old.pool setup.now.library }
        ensures refused { OnRefused result ((self.new.design ≡ self.old.design)
            × (workspace.new.pool ≡ workspace.old.pool)) }
    {
        if self.journal.is_full() {
            return Reply::Refused(Refusal::JournalFull);
        }
        let executed = self.design.command(alloc, setup, command, workspace);
        // For its contract alone: the areas lie in the world, and are few.
        let design = &self.design;
        design.errors.areas();
        self.journal.keep(&command, &executed);
        executed.reply
    }

    /// Carries out [`Command::Save`], and appends the text of the own paint, as a cell file, where it is not refused.
    ///
    /// Out of memory, appends nothing, leaves the journal, and returns a refusal. Where there is room for the text, no
    /// memory is taken.
    pub fn save(&mut self, setup: &Setup, out: &mut Vec<u8>, workspace: &mut Workspace) -> Reply
        requires home { IsHome workspace.old.pool self.old }
        requires made_for { IsMadeFor setup.now self.old }
        ensures saves { (text : List ℕ) × Saves (terms_of setup.now workspace.old.pool)
            (kept_of workspace.old.pool self.old) result text (kept_of workspace.old.pool self.new)
            × (out.new.items ≡ out.old.items ++ text) }
        ensures room { result ≡ Refused Memory → vec_capacity out.old < vec_len out.old
            + length (saved_text setup.now.tech (state_of workspace.old.pool self.old).design.drawn.paint) }
        ensures legal { IsLegal (terms_of setup.now workspace.old.pool) (kept_of workspace.old.pool self.old)
            → IsLegal (terms_of setup.now workspace.old.pool) (kept_of workspace.old.pool self.new) }
        ensures reads_back { OnSaved result (IsLegal (terms_of setup.now workspace.old.pool)
            (kept_of workspace.old.pool self.old)
            → HaveOwnCells (terms_of setup.now workspace.old.pool)
            → ReadsAs setup.now.tech (saved_text setup.now.tech
            (state_of workspace.old.pool self.old).design.drawn.paint)
            (state_of workspace.old.pool self.old).design.drawn.paint) }
        ensures design { self.new.design ≡ self.old.design }
        ensures limit { self.new.limit ≡ self.old.limit }
        ensures pool { workspace.new.pool ≡ workspace.old.pool }
    {
        if self.journal.is_full() {
            return Reply::Refused(Refusal::JournalFull);
        }
        let executed = Executed::with(self.design.save(&setup.tech, out, workspace));
        self.journal.keep(&Command::Save, &executed);
        executed.reply
    }

    /// Returns the journal.
    pub fn journal(&self) -> &[Entry]
        ensures { result.now ≡ self.now.journal }
    {
        self.journal.entries()
    }
}
