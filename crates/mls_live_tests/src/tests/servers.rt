//! Servers, and what they have room for.
ghost use Rattle.std.specs.Prelude.{◌≡◌, [], IfOk};
ghost use Rattle.mls_server.specs.Servers.{world_of};

use mls_edgerule::compile;
use mls_server::{Capacity, Limits, Server};
use mls_session::{JournalLimit, Quota};
use mls_tech::{TECHNOLOGY_M, Tech};
use std::alloc::Global;
use std::test::Fail;

/// What a server has room for: the tiles of its pool, those of a plane, and the entries of a journal.
#[derive(Clone, Copy)]
pub struct Room {
    pub pool: u32,
    pub quota: u32,
    pub entries: u32,
}

/// Room for eight sessions of a few dozen commands.
pub const SMALL: Room = Room {
    pool: 8 * 3 * 320,
    quota: 256,
    entries: 256,
};

/// Creates a server with technology M.
pub fn new_server(alloc: Global, room: Room) -> Result<Server, Fail>
    ensures { IfOk result (λ server. (world_of server).seats ≡ []) }
{
    let capacity = Capacity::new(room.pool).ok_or("no pool")?;
    let quota = Quota::new(room.quota).ok_or("no quota")?;
    let journal = JournalLimit::new(room.entries).ok_or("no limit")?;
    let limits = Limits {
        quota,
        journal,
        ..Limits::default()
    };
    let tech = Tech::read(alloc, TECHNOLOGY_M)?;
    let rules = compile(&tech)?;
    Ok(Server::new(alloc, tech, rules, capacity, limits)?)
}
