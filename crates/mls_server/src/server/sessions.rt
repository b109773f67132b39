//! What an open session is asked.
ghost use Rattle.std.specs.Prelude.{◌≡◌, ◌+◌, ◌++◌, ◌==◌, ◌<◌, ℕ, IfOk, List, None, OnErr, length, map, vec_capacity, vec_len};
ghost use Rattle.std.specs.List.{position};
ghost use Rattle.std.specs.Option.{option_map};
ghost use Rattle.mls_paint.specs.Owners.{ChangesAmong};
ghost use Rattle.mls_server.specs.Events.{DoesCommand, DoesFinish, DoesGrab, DoesSettle, DoesStep, DoesSteps, LooksAt, SavesText, own_text};
ghost use Rattle.mls_server.specs.Servers.{IsPlaceOf, owners_under, world_of};
ghost use Rattle.mls_server.specs.Worlds.{kept_in};
ghost use Rattle.mls_session.specs.declared.refusal.Refusal.TheVariants.{Memory};
ghost use Rattle.mls_session.specs.declared.reply.Reply.TheVariants.{Refused};

use super::Server;
use crate::{GrabFault, NotOpen, SessionId};
use mls_session::{Command, Entry, Finding, Job, Look, Looked, Outcome, Reply, StepRun, Stepped};
use std::alloc::Global;

impl Server {
    /// Carries out a command in a session.
    pub fn command(
        &mut self,
        alloc: Global,
        id: SessionId,
        command: Command,
    ) -> Result<Reply, NotOpen>
        ensures does { DoesCommand (world_of self.old) id command result (world_of self.new) }
        ensures frame { ChangesAmong self.old.pool self.new.pool (owners_under self.old id) }
    {
        let place = self.place_of(id)?;
        let asked = &mut self.sessions[place];
        asked.checked = command.known_after(&asked.checked);
        let session = &mut asked.session;
        Ok(session.command(alloc, &self.setup, command, &mut self.workspace))
    }

    /// Saves the own paint of a session: appends its text, as a cell file, and returns the number of its lines. Nothing
    /// is appended where it is refused. Where there is room for the text, no memory is taken.
    pub fn save(&mut self, id: SessionId, out: &mut Vec<u8>) -> Result<Reply, NotOpen>
        ensures saves { (text : List ℕ) × SavesText (world_of self.old) id result text (world_of self.new)
            × (out.new.items ≡ out.old.items ++ text) }
        ensures room { IfOk result (λ reply. reply ≡ Refused Memory
            → vec_capacity out.old < vec_len out.old + length (own_text (world_of self.old) id)) }
        ensures frame { self.new.pool ≡ self.old.pool }
    {
        let place = self.place_of(id)?;
        let asked = &mut self.sessions[place];
        Ok(asked.session.save(&self.setup, out, &mut self.workspace))
    }

    /// Looks at a session as it is: appends the text that a look asks for, and returns what goes before it. Nothing
    /// changes, and nothing is appended where the look is refused. Where there is room for the text, [`Look::Save`]
    /// takes no memory.
    pub fn look(
        &mut self,
        alloc: Global,
        id: SessionId,
        look: Look,
        out: &mut Vec<u8>,
    ) -> Result<Looked, NotOpen>
        ensures looks { (text : List ℕ) × LooksAt (world_of self.old) id look result text
            × (out.new.items ≡ out.old.items ++ text) }
        ensures room { look ≡ Look.Save → IfOk result (λ looked. looked ≡ Looked.Refused Memory
            → vec_capacity out.old < vec_len out.old + length (own_text (world_of self.old) id)) }
        ensures same { world_of self.new ≡ world_of self.old }
        ensures frame { self.new.pool ≡ self.old.pool }
    {
        let place = self.place_of(id)?;
        let asked = &mut self.sessions[place];
        let session = &mut asked.session;
        Ok(session.look(alloc, &self.setup, look, out, &mut self.workspace))
    }

    /// Returns what a check of a session's first piece needs, if an area awaits checking. Nothing changes.
    pub fn grab(&mut self, alloc: Global, id: SessionId) -> Result<Option<Job>, GrabFault>
        ensures grabs { DoesGrab (world_of self.old) id result (world_of self.new) }
        ensures frame { self.new.pool ≡ self.old.pool }
    {
        let Ok(place) = self.place_of(id) else {
            return Err(GrabFault::NotOpen);
        };
        let asked = &mut self.sessions[place];
        match asked.session.grab(alloc, &self.setup, &mut self.workspace) {
            Ok(job) => Ok(job),
            Err(_) => Err(GrabFault::Memory),
        }
    }

    /// Does a check step in a session: a grab, a check and a finish at once.
    pub fn step(&mut self, alloc: Global, id: SessionId) -> Result<Stepped, NotOpen>
        ensures steps { DoesStep (world_of self.old) id result (world_of self.new) }
        ensures frame { ChangesAmong self.old.pool self.new.pool (owners_under self.old id) }
    {
        let place = self.place_of(id)?;
        let asked = &mut self.sessions[place];
        asked.checked = None;
        Ok(asked.session.step(alloc, &self.setup, &mut self.workspace))
    }

    /// Does check steps in a session one after another, until so many are done or one isn't.
    pub fn run_steps(&mut self, alloc: Global, id: SessionId, most: u64) -> Result<StepRun, NotOpen>
        ensures steps { DoesSteps (world_of self.old) id most result (world_of self.new) }
        ensures frame { ChangesAmong self.old.pool self.new.pool (owners_under self.old id) }
    {
        let place = self.place_of(id)?;
        let asked = &mut self.sessions[place];
        asked.checked = None;
        let session = &mut asked.session;
        Ok(session.run_steps(alloc, &self.setup, most, &mut self.workspace))
    }

    /// Marks what a check found in a session. No memory is taken.
    pub fn finish(&mut self, id: SessionId, finding: Finding) -> Result<Outcome, NotOpen>
        ensures finishes { DoesFinish (world_of self.old) id finding result (world_of self.new) }
        ensures frame { ChangesAmong self.old.pool self.new.pool (owners_under self.old id) }
    {
        self.finish_ref(id, &finding)
    }

    /// As [`Server::finish`], with a finding that stays the caller's.
    pub fn finish_ref(&mut self, id: SessionId, finding: &Finding) -> Result<Outcome, NotOpen>
        ensures finishes { DoesFinish (world_of self.old) id finding.now result (world_of self.new) }
        ensures frame { ChangesAmong self.old.pool self.new.pool (owners_under self.old id) }
    {
        let place = self.place_of(id)?;
        let asked = &mut self.sessions[place];
        let checked = &mut asked.checked;
        let session = &mut asked.session;
        Ok(session.finish(&self.setup, finding, checked, &mut self.workspace))
    }

    /// Takes pieces out of a session's areas whose marks are known to be right since an earlier check, and returns how
    /// many; each counts as a check step. No memory is taken.
    ///
    /// [`Server::finish`] notes what it checked; a command that may change the layout or the marks makes the session
    /// forget it, and so does a step.
    pub fn settle(&mut self, id: SessionId) -> Result<u64, NotOpen>
        ensures settles { DoesSettle (world_of self.old) id result (world_of self.new) }
        ensures frame { ChangesAmong self.old.pool self.new.pool (owners_under self.old id) }
    {
        let place = self.place_of(id)?;
        let asked = &mut self.sessions[place];
        let session = &mut asked.session;
        Ok(session.settle(&self.setup, &mut asked.checked, &mut self.workspace))
    }

    /// Returns the journal of a session, if it is open.
    pub fn journal(&self, id: SessionId) -> Option<&[Entry]>
        ensures value { option_map (λ entries. entries.now) result
            ≡ option_map (λ kept. kept.journal) (kept_in (world_of self.now) id) }
    {
        let Ok(place) = self.place_of(id) else {
            return None;
        };
        Some(self.sessions[place].session.journal())
    }

    /// Returns how many entries the journal of a session has, if it is open.
    pub fn journal_len(&self, id: SessionId) -> Option<usize>
        ensures value { result ≡ option_map (λ kept. kept.own.entries) (kept_in (world_of self.now) id) }
    {
        let journal = self.journal(id)?;
        Some(journal.len())
    }

    /// Returns the place of the session among the open ones.
    pub(super) fn place_of(&self, id: SessionId) -> Result<usize, NotOpen>
        ensures place { IfOk result (λ place. IsPlaceOf self.now id place) }
        ensures missing { OnErr result (kept_in (world_of self.now) id ≡ None) }
    {
        self.index_of(id).ok_or(NotOpen)
    }

    /// Returns the place of the session among the open ones, if it is open.
    fn index_of(&self, id: SessionId) -> Option<usize>
        ensures { result ≡ position (λ asked. asked.id == id) (map (λ entry. entry.1) self.now.sessions) }
    {
        self.sessions.values().position(|asked| asked.id == id)
    }
}
