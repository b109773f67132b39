//! Servers, and what a test asks of them.
//!
//! What a call of a server ensures speaks of all its sessions, and a proof carries it to the end of the function that
//! makes the call. So each call stands apart, in a function that returns a plain value and ensures nothing, and what
//! asserts such values is proved with no fact on the server.
ghost use Rattle.std.specs.Prelude.{◌≡◌, [], IfOk};
ghost use Rattle.mls_server.specs.Servers.{world_of};

use mls_checker::{Finding, check};
use mls_edgerule::compile;
use mls_errorplane::Outcome;
use mls_library::{CellFault, CellId};
use mls_server::{Capacity, Limits, Name, NotOpen, Server, SessionId};
use mls_session::{Command, Job, Reply};
use mls_tech::{TECHNOLOGY_M, Tech};
use std::alloc::Global;
use std::test::Fail;

/// A server with the technology of a file, on which no session is open.
pub fn new_server(alloc: Global, file: &[u8]) -> Result<Server, Fail>
    ensures { IfOk result (λ server. (world_of server).seats ≡ []) }
{
    let tech = Tech::read(alloc, file)?;
    let rules = compile(&tech)?;
    let (capacity, limits) = (Capacity::default(), Limits::default());
    Ok(Server::new(alloc, tech, rules, capacity, limits)?)
}

/// Loads a cell.
fn load(alloc: Global, server: &mut Server, name: &[u8], file: &[u8]) -> Result<CellId, CellFault>
    requires idle { (world_of server.old).seats ≡ [] }
{
    server.load(alloc, name, file)
}

/// A server with technology M and a cell.
pub fn stocked_server(alloc: Global, name: &[u8], file: &[u8]) -> Result<Server, Fail> {
    let mut server = new_server(alloc, TECHNOLOGY_M)?;
    load(alloc, &mut server, name, file)?;
    Ok(server)
}

/// The cell of this name.
pub fn cell_named(server: &Server, name: &[u8]) -> Option<CellId> {
    server.cell(name)
}

/// Opens a session.
pub fn open(alloc: Global, server: &mut Server, name: &[u8]) -> SessionId {
    let Some(name) = Name::new(name) else {
        return SessionId::of(0);
    };
    server.open(alloc, name).unwrap_or(SessionId::of(0))
}

/// Closes a session.
pub fn close(server: &mut Server, id: SessionId) -> Result<(), NotOpen> {
    server.close(id)
}

/// Carries out a command in a session.
pub fn command(
    alloc: Global,
    server: &mut Server,
    id: SessionId,
    command: Command,
) -> Result<Reply, NotOpen> {
    server.command(alloc, id, command)
}

/// Checks the first piece of a session.
pub fn found(alloc: Global, server: &mut Server, id: SessionId) -> Option<Finding> {
    let Ok(Some(job)) = server.grab(alloc, id) else {
        return None;
    };
    let Job {
        piece,
        snapshot,
        rules,
    } = job;
    check(alloc, rules.as_rules(), snapshot, piece).ok()
}

/// Finishes a check with what it found.
pub fn finish(server: &mut Server, id: SessionId, finding: Finding) -> Result<Outcome, NotOpen> {
    server.finish(id, finding)
}

/// Finishes a check, and keeps what it found.
pub fn finish_ref(
    server: &mut Server,
    id: SessionId,
    finding: &Finding,
) -> Result<Outcome, NotOpen> {
    server.finish_ref(id, finding)
}
