//! Looks at a session.
ghost use Rattle.std.specs.Prelude.{◌≡◌, ◌+◌, ◌++◌, ◌<◌, ◌⊎◌, [], List, length, vec_capacity, vec_len, ℕ};
ghost use Rattle.mls_session.specs.Common.{Pool, saved_text};
ghost use Rattle.mls_session.specs.Looks as spec;
ghost use Rattle.mls_session.specs.Looks.{ErrorsReadBack, IsRect, Looks, MarksReadBack, OnMarks, ViolationsAreMarks, errors_of, violations_of, why_in};
ghost use Rattle.mls_session.specs.Own.{layout_of};
ghost use Rattle.mls_session.specs.Journals.{IsLegal};
ghost use Rattle.mls_session.specs.OwnSteps.{Terms};
ghost use Rattle.mls_session.specs.Setups.{config_of, terms_of};

use super::Session;
use crate::look::tile_counts;
use crate::{JournalCopy, Listing, Look, Looked, Refusal, Setup, Status};
use mls_geom::{Rect, RectFault};
use mls_layout::{Unlisted, Workspace};
use mls_tilepool::Pool;
use std::alloc::Global;

impl Session {
    ghost use Rattle.mls_session.specs.Sessions.{IsHome, IsMadeFor, IsReady, kept_of, state_of};

    /// Returns what a look asks for, and appends the text that comes with it. Nothing of the session changes.
    ///
    /// Where the look is refused, as it is out of memory, nothing is appended. Where there is room for the text,
    /// [`Look::Save`] takes no memory. The text of [`Look::Marks`] reads as the layout, and that of [`Look::Errors`]
    /// as an empty one. Where nothing in a rectangle awaits checking, what [`Look::Violations`] returns has the marked
    /// squares.
    pub fn look(
        &self,
        alloc: Global,
        setup: &Setup,
        look: Look,
        out: &mut Vec<u8>,
        workspace: &mut Workspace,
    ) -> Looked
        requires ready { IsReady setup.now workspace.old.pool self.now }
        ensures looks { (text : List ℕ) × Looks (terms_of setup.now workspace.old.pool)
            (kept_of workspace.old.pool self.now) look result text × (out.new.items ≡ out.old.items ++ text) }
        ensures reads_back { OnMarks look (IsLegal (terms_of setup.now workspace.old.pool)
            (kept_of workspace.old.pool self.now)
            → MarksReadBack (terms_of setup.now workspace.old.pool) (kept_of workspace.old.pool self.now)) }
        ensures errors_read_back { ErrorsReadBack (terms_of setup.now workspace.old.pool)
            (kept_of workspace.old.pool self.now) }
        ensures violations_are_marks { ViolationsAreMarks (terms_of setup.now workspace.old.pool)
            (kept_of workspace.old.pool self.now) }
        ensures room { look ≡ Look.Save → result ≡ Looked.Refused Refusal.Memory → vec_capacity out.old
            < vec_len out.old + length (saved_text setup.now.tech
            (state_of workspace.old.pool self.now).design.drawn.paint) }
        ensures pool { workspace.new.pool ≡ workspace.old.pool }
    {
        // For its contract alone: what holds at each rectangle.
        self.shows_boxes(setup);
        match look {
            Look::Save => self.look_at_text(setup, out, workspace),
            Look::Why {
                left,
                bottom,
                right,
                top,
            } => {
                let made = Rect::new(left, bottom, right, top);
                self.look_at_rules(alloc, setup, made, workspace)
            }
            Look::Status => self.look_at_status(alloc, setup, &workspace.pool),
            Look::Uses => self.look_at_uses(alloc, &workspace.pool),
            Look::Marks => self.look_at_marks(alloc, setup, out, workspace),
            Look::Errors {
                left,
                bottom,
                right,
                top,
            } => {
                let made = Rect::new(left, bottom, right, top);
                self.look_at_errors(alloc, setup, made, out, workspace)
            }
            Look::Violations {
                left,
                bottom,
                right,
                top,
            } => {
                let made = Rect::new(left, bottom, right, top);
                self.look_at_violations(alloc, setup, made, workspace)
            }
            Look::Journal => self.look_at_journal(alloc, &workspace.pool),
        }
    }

    /// The text of the marks in any rectangle reads as an empty layout, and where nothing there awaits checking, what
    /// the rules forbid there has the marked squares. Does nothing: the contract is the law.
    fn shows_boxes(&self, setup: &Setup)
        ensures errors_read_back { (pool : Pool) → ErrorsReadBack (terms_of setup.now pool) (kept_of pool self.now) }
        ensures violations_are_marks { (pool : Pool) → ViolationsAreMarks (terms_of setup.now pool)
            (kept_of pool self.now) }
    {
        // For their contracts alone: how the texts read, and that the rules are few.
        self.design.reads_back(&setup.tech);
        setup.rules.as_slice();
    }

    /// Appends the text of the own paint, and returns the number of its lines.
    fn look_at_text(&self, setup: &Setup, out: &mut Vec<u8>, workspace: &mut Workspace) -> Looked
        requires home { IsHome workspace.old.pool self.now }
        requires made_for { IsMadeFor setup.now self.now }
        ensures looks { (text : List ℕ) × Looks (terms_of setup.now workspace.old.pool)
            (kept_of workspace.old.pool self.now) Look.Save result text × (out.new.items ≡ out.old.items ++ text) }
        ensures room { result ≡ Looked.Refused Refusal.Memory → vec_capacity out.old < vec_len out.old
            + length (saved_text setup.now.tech (state_of workspace.old.pool self.now).design.drawn.paint) }
        ensures pool { workspace.new.pool ≡ workspace.old.pool }
    {
        let len = out.len();
        match self.design.push_text(&setup.tech, out, workspace) {
            Ok(lines) => Looked::Saved(lines),
            Err(_) => {
                out.truncate(len);
                Looked::Refused(Refusal::Memory)
            }
        }
    }

    /// Returns the rules that forbid some square of a rectangle, or why there is no such rectangle.
    fn look_at_rules(
        &self,
        alloc: Global,
        setup: &Setup,
        made: Result<Rect, RectFault>,
        workspace: &mut Workspace,
    ) -> Looked
        requires ready { IsReady setup.now workspace.old.pool self.now }
        ensures looks { (result ≡ why_in setup.now.rules
            (layout_of (config_of setup.now workspace.old.pool)
            (state_of workspace.old.pool self.now).design.drawn) made)
            ⊎ (IsRect made × (result ≡ Looked.Refused Refusal.Memory)) }
        ensures pool { workspace.new.pool ≡ workspace.old.pool }
    {
        match made {
            Ok(rect) => match self.design.why_in(alloc, setup, rect, workspace) {
                Ok(violated) => Looked::Why(violated),
                Err(_) => Looked::Refused(Refusal::Memory),
            },
            Err(fault) => no_rect(fault),
        }
    }

    /// Returns how far the session has come, and how many tiles its planes have.
    fn look_at_status(&self, alloc: Global, setup: &Setup, pool: &Pool) -> Looked
        requires home { IsHome pool.now self.now }
        requires made_for { IsMadeFor setup.now self.now }
        ensures { Looks (terms_of setup.now pool.now) (kept_of pool.now self.now) Look.Status result [] }
    {
        let Ok(tiles) = tile_counts(alloc, pool, &self.design.planes) else {
            return Looked::Refused(Refusal::Memory);
        };
        let errors = &self.design.errors;
        Looked::Status(Status {
            entries: self.journal.entries().len(),
            limit: setup.limit.get() as usize,
            steps: self.journal.checks,
            areas: errors.areas(),
            tiles,
            quota: setup.quota.get(),
            mark_tiles: errors.tiles(pool),
        })
    }

    /// Returns the cells that are placed.
    fn look_at_uses(&self, alloc: Global, pool: &Pool) -> Looked
        ensures { (terms : Terms) → Looks terms (kept_of pool.now self.now) Look.Uses result [] }
    {
        match Vec::from_slice(alloc, &self.design.uses) {
            Ok(uses) => Looked::Uses(Listing::new(uses)),
            Err(_) => Looked::Refused(Refusal::Memory),
        }
    }

    /// Returns the journal, and how many check steps were done since its last entry.
    fn look_at_journal(&self, alloc: Global, pool: &Pool) -> Looked
        ensures { (terms : Terms) → Looks terms (kept_of pool.now self.now) Look.Journal result [] }
    {
        match JournalCopy::copy_of(alloc, self.journal.entries(), self.journal.checks) {
            Ok(copy) => Looked::Journal(copy),
            Err(_) => Looked::Refused(Refusal::Memory),
        }
    }

    /// Appends the text of the layout with the areas that await checking and the marks, and returns the number of its
    /// lines.
    fn look_at_marks(
        &self,
        alloc: Global,
        setup: &Setup,
        out: &mut Vec<u8>,
        workspace: &mut Workspace,
    ) -> Looked
        requires ready { IsReady setup.now workspace.old.pool self.now }
        ensures looks { (text : List ℕ) × Looks (terms_of setup.now workspace.old.pool)
            (kept_of workspace.old.pool self.now) Look.Marks result text × (out.new.items ≡ out.old.items ++ text) }
        ensures reads_back { IsLegal (terms_of setup.now workspace.old.pool) (kept_of workspace.old.pool self.now)
            → MarksReadBack (terms_of setup.now workspace.old.pool) (kept_of workspace.old.pool self.now) }
        ensures pool { workspace.new.pool ≡ workspace.old.pool }
    {
        // For its contract alone: the text reads as the layout.
        self.design.reads_back(&setup.tech);
        match self.design.mark_text(alloc, setup, out, workspace) {
            Ok(lines) => Looked::Marked(lines),
            Err(Unlisted::TooMany) => Looked::Refused(Refusal::Quota),
            Err(Unlisted::Memory) => Looked::Refused(Refusal::Memory),
        }
    }

    /// Appends the text of the marks and of the areas that await checking in a rectangle, and returns the number of its
    /// lines, or why there is no such rectangle.
    fn look_at_errors(
        &self,
        alloc: Global,
        setup: &Setup,
        made: Result<Rect, RectFault>,
        out: &mut Vec<u8>,
        workspace: &mut Workspace,
    ) -> Looked
        requires ready { IsReady setup.now workspace.old.pool self.now }
        ensures looks { (text : List ℕ) × ((errors_of setup.now.tech
            (state_of workspace.old.pool self.now).design.checking made ≡ (result, text))
            ⊎ (IsRect made × (result ≡ Looked.Refused Refusal.Memory) × (text ≡ [])))
            × (out.new.items ≡ out.old.items ++ text) }
        ensures pool { workspace.new.pool ≡ workspace.old.pool }
    {
        match made {
            Ok(rect) => match self
                .design
                .error_text(alloc, &setup.tech, rect, out, workspace)
            {
                Ok(lines) => Looked::Errors(lines),
                Err(_) => Looked::Refused(Refusal::Memory),
            },
            Err(fault) => no_rect(fault),
        }
    }

    /// Returns what each rule forbids in a rectangle, or why it isn't listed.
    fn look_at_violations(
        &self,
        alloc: Global,
        setup: &Setup,
        made: Result<Rect, RectFault>,
        workspace: &mut Workspace,
    ) -> Looked
        requires ready { IsReady setup.now workspace.old.pool self.now }
        ensures looks { (result ≡ violations_of setup.now.quota setup.now.rules
            (layout_of (config_of setup.now workspace.old.pool)
            (state_of workspace.old.pool self.now).design.drawn) made)
            ⊎ (IsRect made × (result ≡ Looked.Refused Refusal.Memory)) }
        ensures pool { workspace.new.pool ≡ workspace.old.pool }
    {
        match made {
            Ok(rect) => match self.design.violations_in(alloc, setup, rect, workspace) {
                Ok(found) => Looked::Violations(Listing::new(found)),
                Err(Unlisted::TooMany) => Looked::Refused(Refusal::Quota),
                Err(Unlisted::Memory) => Looked::Refused(Refusal::Memory),
            },
            Err(fault) => no_rect(fault),
        }
    }
}

/// Returns the refusal of a look at a rectangle that there isn't.
fn no_rect(fault: RectFault) -> Looked
    ensures { result ≡ spec.no_rect fault }
{
    match fault {
        RectFault::Empty => Looked::Refused(Refusal::EmptyBox),
        RectFault::Outside => Looked::Refused(Refusal::OutsideWorld),
    }
}
