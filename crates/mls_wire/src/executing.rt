//! Executing lines.
ghost use Rattle.std.specs.Prelude.{◌≡◌, ◌≢◌, None, Some};
ghost use Rattle.std.specs.Option.{option_map};
ghost use Rattle.mls_server.specs.Servers.{world_of};
ghost use Rattle.mls_server.specs.Worlds.{kept_in};
ghost use Rattle.mls_wire.specs.Runs as runs;
ghost use Rattle.mls_wire.specs.Runs.{Asks, Executes, says_in};
ghost use Rattle.mls_wire.specs.ScriptLines.{bytes_of_line};

use crate::{Line, Response, ScriptLine, parse_line};
use mls_server::{Command, Event, Name, Server, SessionId};
use std::alloc::Global;

/// Executes a line, and returns the response to it.
pub fn respond(alloc: Global, server: &mut Server, line: ScriptLine<'_>) -> Response
    ensures executes { Executes (world_of server.old)
        (says_in (world_of server.old) (bytes_of_line line.entry)) result (world_of server.new) }
    ensures setting { (world_of server.new).setting ≡ (world_of server.old).setting }
{
    let said = match parse_line(server, server, line) {
        Ok(said) => said,
        Err(fault) => return Response::Fault(fault),
    };
    match said {
        Line::Silent => Response::Silent,
        Line::Open(name) => ask(alloc, server, name, Event::Open(name)),
        Line::Close(name, id) => ask(alloc, server, name, Event::Close(id)),
        Line::Step(name, id) => ask(alloc, server, name, Event::Step(id)),
        Line::Steps(name, id, most) => ask(alloc, server, name, Event::Steps(id, most)),
        Line::Audit(name, id) => Response::Audited(name, entries_of(server, id)),
        Line::Look(name, id, look) => ask(alloc, server, name, Event::Look(id, look)),
        Line::Run(name, id, command) => ask(alloc, server, name, command_event(id, command)),
    }
}

/// Asks for an event, and responds with its answer.
fn ask(alloc: Global, server: &mut Server, name: Name, event: Event) -> Response
    ensures asks { Asks (world_of server.old) name event result (world_of server.new) }
    ensures setting { (world_of server.new).setting ≡ (world_of server.old).setting }
{
    Response::Answered(name, server.act(alloc, &event))
}

/// Returns the event that a command asks for.
fn command_event(id: SessionId, command: Command) -> Event
    ensures { result ≡ runs.command_event id command }
{
    match command {
        Command::Save => Event::Save(id),
        command => Event::Command(id, command),
    }
}

/// Returns the number of entries of the journal of an open session.
fn entries_of(server: &Server, id: SessionId) -> usize
    requires { kept_in (world_of server.now) id ≢ None }
    ensures { option_map (λ kept. kept.own.entries) (kept_in (world_of server.now) id) ≡ Some result }
{
    let Some(entries) = server.journal_len(id) else {
        unreachable!()
    };
    entries
}
