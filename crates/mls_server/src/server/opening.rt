//! Opening and closing sessions.
ghost use Rattle.std.specs.Prelude.{◌≡◌, ℕ};
ghost use Rattle.std.specs.List.{Contains};
ghost use Rattle.mls_server.specs.Events as spec;
ghost use Rattle.mls_server.specs.Events.{Closes, Opens};
ghost use Rattle.mls_server.specs.Servers.{owners_under, world_of};
ghost use Rattle.mls_tilepool.specs.Pools.{IsOwner, tiles_of};

use super::{OpenSession, Server};
use crate::{Name, NotOpen, OpenFault, SessionId};
use mls_session::Session;
use std::alloc::Global;

/// The most sessions that may be open.
const MOST_SESSIONS: usize = 64;

impl Server {
    /// Opens a session of this name, and returns its id: the n-th session that is opened has the id n.
    ///
    /// # Errors
    ///
    /// The first fault, in this order: a session of the name is open, 64 sessions are open (or no id is left), the
    /// pool has fewer unreserved tiles than the session's planes reserve, memory ran out. Nothing has changed then.
    pub fn open(&mut self, alloc: Global, name: Name) -> Result<SessionId, OpenFault>
        ensures opens { Opens (world_of self.old) name result (world_of self.new) }
        ensures frame { (other : ℕ) → IsOwner self.old.pool other
            → tiles_of self.new.pool other ≡ tiles_of self.old.pool other }
    {
        if let Some(fault) = self.open_fault(&name) {
            return Err(fault);
        }
        let Server {
            setup,
            workspace,
            given,
            sessions,
        } = self;
        let Ok(()) = sessions.reserve(1) else {
            return Err(OpenFault::Memory);
        };
        let Ok(session) = Session::open(alloc, setup, workspace) else {
            return Err(OpenFault::Memory);
        };
        *given += 1;
        let id = SessionId::of(*given);
        // There is room for it.
        let opened = OpenSession {
            id,
            session,
            checked: None,
        };
        sessions.insert(name, opened).unwrap();
        Ok(id)
    }

    /// Returns why a session of this name can't be opened, memory aside.
    #[tactic(auto, unfolding(crate::specs::Events::open_fault))]
    pub fn open_fault(&self, name: &Name) -> Option<OpenFault>
        ensures fault { result ≡ spec.open_fault (world_of self.now) name.now }
    {
        if self.session(name).is_some() {
            return Some(OpenFault::OpenAlready);
        }
        if self.sessions.len() >= MOST_SESSIONS || self.given == u64::MAX {
            return Some(OpenFault::SessionsFull);
        }
        if self.workspace.pool.unreserved() < self.setup.reserve() {
            return Some(OpenFault::PoolFull);
        }
        None
    }

    /// Closes a session, and gives back all that it holds. No memory is taken.
    pub fn close(&mut self, id: SessionId) -> Result<(), NotOpen>
        ensures closes { Closes (world_of self.old) id result (world_of self.new) }
        ensures frame { (other : ℕ) → ¬ (Contains (owners_under self.old id) other)
            → tiles_of self.new.pool other ≡ tiles_of self.old.pool other }
    {
        let place = self.place_of(id)?;
        // There is an entry at the place.
        let (_, closed) = self.sessions.shift_remove_index(place).unwrap();
        closed.session.close(&mut self.workspace.pool);
        Ok(())
    }
}
