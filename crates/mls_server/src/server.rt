//! A server: sessions by name over one pool.
ghost use Rattle.std.specs.Prelude.{◌≡◌, ◌↔◌, ◌<◌, ◌^◌, [], IfOk, IsTrue, map, slice_get};
ghost use Rattle.std.specs.List.{position};
ghost use Rattle.std.specs.Option.{option_map};
ghost use Rattle.mls_session.specs.mls_library.Libraries.{names_of};
ghost use Rattle.mls_server.specs.Events.{LoadsCell};
ghost use Rattle.mls_server.specs.Servers.{world_of};
ghost use Rattle.mls_server.specs.Settings.{cell_names};
ghost use Rattle.mls_server.specs.Worlds.{IsNumbered, JournalsAreLegal, JournalsHaveRoom, MarksAreExact, MarksAreRight, SavesReadBack, session_named};
ghost use Rattle.mls_text.specs.Words.{same_word};

mod events;
mod opening;
mod sessions;

use crate::{Capacity, Limits, Name, SessionId};
use indexmap::IndexMap;
use mls_edgerule::Rules;
use mls_session::{
    CellFault, CellFile, CellId, Checked, JournalLimit, Library, Session, Setup, Workspace,
};
use mls_tech::Tech;
use std::alloc::{AllocError, Global};
use std::marker::Model;

/// A session that is open, its id, and where earlier checks are known to have left right marks.
#[derive(Drop)]
pub(crate) struct OpenSession {
    pub(crate) id: SessionId,
    pub(crate) session: Session,
    pub(crate) checked: Option<Checked>,
}

/// A server of up to 64 sessions over one pool.
///
/// It lends each session its setup and its workspace for one call at a time.
pub struct Server {
    setup: Setup,
    workspace: Workspace,
    given: u64,
    sessions: IndexMap<Name, OpenSession>,
}

impl Model for Server {
    ghost use Rattle.mls_server.specs.Servers.{AreOpen, Server};

    ghost Value = { Server };

    ghost view = { λ s. record {
      setup = s.setup;
      pool = s.workspace.pool;
      given = s.given;
      sessions = s.sessions.entries;
    } };

    ghost invariant = { λ s. AreOpen s.setup s.workspace.pool s.given s.sessions.entries };
}

// Written out, so that what a server's end drops is proved here, and not in each crate that lets a server go.
impl Drop for Server {
    fn drop(self) {
        let Server {
            setup: _setup,
            workspace: _workspace,
            given: _,
            sessions: _sessions,
        } = self;
    }
}

impl Server {
    /// Creates a server with no cells and no open session, over a pool of this many tiles, whose sessions have the
    /// planes and types of this technology, are checked by these rules, and have the quota and the journals of these
    /// limits.
    ///
    /// Reserves the memory of the pool, and of the lists in which commands work.
    #[tactic(auto, unfolding(mls_tilepool::specs::Pools::reserved))]
    pub fn new(
        alloc: Global,
        tech: Tech,
        rules: Rules,
        capacity: Capacity,
        limits: Limits,
    ) -> Result<Server, AllocError>
        ensures world { IfOk result (λ server. world_of server ≡ record {
          setting = record {
            tech = tech;
            rules = rules;
            quota = limits.quota;
            journal = limits.journal;
            cell_tiles = limits.cell_tiles;
            cells = [];
          };
          given = 0;
          seats = [];
          room = capacity;
        }) }
    {
        let workspace = Workspace::new(alloc, capacity.get())?;
        let library = Library::new(alloc);
        let setup = Setup {
            tech,
            rules,
            library,
            quota: limits.quota,
            cell_tiles: limits.cell_tiles,
            limit: limits.journal,
        };
        Ok(Server {
            setup,
            workspace,
            given: 0,
            sessions: IndexMap::new(alloc),
        })
    }

    /// Loads a cell from a file. No session may be open.
    ///
    /// # Errors
    ///
    /// Those of [`Library::load`]. The server then stays as it was.
    pub fn load(&mut self, alloc: Global, name: &[u8], bytes: &[u8]) -> Result<CellId, CellFault>
        requires idle { (world_of self.old).seats ≡ [] }
        ensures loads { LoadsCell (world_of self.old) name.now bytes.now result (world_of self.new) }
    {
        let Server {
            setup,
            workspace,
            ..
        } = self;
        let Setup {
            tech,
            library,
            cell_tiles,
            ..
        } = setup;
        let Workspace { pool, .. } = workspace;
        library.load(alloc, pool, tech, &CellFile { name, bytes }, *cell_tiles)
    }

    /// Returns whether no session is open.
    pub fn is_idle(&self) -> bool
        ensures idle { IsTrue result ↔ ((world_of self.now).seats ≡ []) }
    {
        self.sessions.is_empty()
    }

    /// Returns the id of the open session of this name.
    pub fn session(&self, name: &Name) -> Option<SessionId>
        ensures value { result ≡ session_named (world_of self.now) name.now }
    {
        let open = self.sessions.get(name)?;
        Some(open.id)
    }

    /// Returns the cell of this name.
    pub fn cell(&self, name: &[u8]) -> Option<CellId>
        ensures value { result ≡ position (λ cell. same_word name.now cell.name) (world_of self.now).setting.cells }
    {
        self.setup.library.cell_named(name)
    }

    /// Returns the name of a cell.
    pub fn cell_name(&self, cell: CellId) -> Option<&[u8]>
        ensures value { option_map (λ name. name.now) result
            ≡ slice_get (cell_names (world_of self.now).setting) cell }
    {
        self.setup.library.name(cell)
    }

    /// Copies the names of all cells, in the order in which they were loaded.
    pub fn cell_names(&self, alloc: Global) -> Result<Vec<Vec<u8>>, AllocError>
        ensures names { IfOk result (λ names. map (λ name. name.items) names.items
            ≡ cell_names (world_of self.now).setting) }
    {
        copy_names(alloc, &self.setup.library)
    }

    /// Returns the technology.
    pub fn tech(&self) -> &Tech
        ensures value { result.now ≡ (world_of self.now).setting.tech }
    {
        &self.setup.tech
    }

    /// Returns how many entries the journal of a session may have.
    pub fn journal_limit(&self) -> JournalLimit
        ensures value { result ≡ (world_of self.now).setting.journal }
    {
        self.setup.limit
    }

    /// Returns how many ids were given.
    pub fn ids_given(&self) -> u64
        ensures value { result ≡ (world_of self.now).given }
        ensures fits { result < 2 ^ 64 }
    {
        self.given
    }

    /// What every server keeps: the marks of each open session are right outside the areas that await checking, and
    /// exact where there is none, its journal is legal, counted by its own state and within the limit, and the text of
    /// its own paint reads as that. Does nothing: the contract is the law.
    pub fn stays_sound(&self)
        ensures right { MarksAreRight (world_of self.now) }
        ensures exact { MarksAreExact (world_of self.now) }
        ensures legal { JournalsAreLegal (world_of self.now) }
        ensures read_back { SavesReadBack (world_of self.now) }
        ensures numbered { IsNumbered (world_of self.now) }
        ensures room { JournalsHaveRoom (world_of self.now) }
        ensures given { (world_of self.now).given < 2 ^ 64 }
    {
        // For its contract alone: the number of ids has 64 bits.
        self.ids_given();
        // For their contracts alone: the names are words.
        self.setup.tech.types();
        self.setup.tech.name();
        let _sessions = &self.sessions;
    }
}

/// Copies the names of all cells of a library.
fn copy_names(alloc: Global, library: &Library) -> Result<Vec<Vec<u8>>, AllocError>
    ensures { IfOk result (λ names. map (λ name. name.items) names.items ≡ names_of library.now) }
{
    let mut names = Vec::new(alloc);
    for place in 0..library.len() {
        let Some(name) = library.name_at(place) else {
            unreachable!()
        };
        names.push(Vec::from_slice(alloc, name)?)?;
    }
    Ok(names)
}
