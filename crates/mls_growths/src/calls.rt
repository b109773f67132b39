//! Calls of a server.
use crate::scene::Scene;
use crate::servers::{Told, act, id_a, load, print_reply, print_told, save, tell};
use crate::shown::{print_joined, show_server};
use anyhow::Result;
use mls_library::{CellFault, CellId};
use mls_server::{Event, Name, NotOpen, Server};
use mls_session::{Command, Reply};
use std::alloc::Global;

/// A call of a server.
#[derive(Clone, Copy)]
pub enum Call {
    /// Loads a cell.
    Load,
    /// Opens session c.
    Open,
    Save,
    Why,
    What,
    CatchUp,
    Grab,
    Step,
    /// Does at most so many check steps, in one call.
    RunSteps(u64),
    /// Does so many check steps, and nothing else.
    Steps(u8),
}

/// What a call of a server returns.
#[derive(Clone, Copy)]
pub enum Returned {
    Loaded(Option<Result<CellId, CellFault>>),
    Answered(u8, Told),
    Saved(Result<Reply, NotOpen>),
    LeftOut,
}

/// A server, and the two calls that are made of it.
#[derive(Drop)]
pub struct ServerScene<'s> {
    server: &'s mut Server,
    calls: [Call; 2],
    /// What texts are appended to.
    out: Vec<u8>,
}

impl<'s> ServerScene<'s> {
    pub fn new(alloc: Global, server: &'s mut Server, calls: [Call; 2]) -> Result<ServerScene<'s>> {
        let out = Vec::from_slice(alloc, b"kept\n")?;
        Ok(ServerScene { server, calls, out })
    }
}

impl<R: Print> Scene<R> for ServerScene<'_> {
    type Answer = Returned;

    fn call(&mut self, _rt: &R, alloc: Global, turn: u8) -> Returned {
        let [first, again] = self.calls;
        let call = if turn == 0 { first } else { again };
        made(alloc, self.server, call, &mut self.out)
    }

    fn print(&mut self, rt: &R, alloc: Global, answer: Returned) -> Result<()> {
        match answer {
            Returned::Loaded(loaded) => print_loaded(rt, loaded),
            Returned::Answered(letter, told) => print_told(rt, alloc, self.server, letter, told),
            Returned::Saved(saved) => {
                print_reply(rt, alloc, self.server, b'a', saved, b"")?;
                print_joined(rt, &self.out)
            }
            Returned::LeftOut => Ok(println!(rt; "left out")?),
        }
    }

    fn show(&mut self, rt: &R, alloc: Global) -> Result<()> {
        show_server(rt, alloc, self.server)
    }
}

/// Makes a call.
fn made(alloc: Global, server: &mut Server, call: Call, out: &mut Vec<u8>) -> Returned {
    match call {
        Call::Load => Returned::Loaded(load(alloc, server, b"d")),
        Call::Open => open_c(alloc, server),
        Call::Save => Returned::Saved(save(server, id_a(), out)),
        Call::Why => commanded(alloc, server, Command::Why),
        Call::What => commanded(alloc, server, Command::What),
        Call::CatchUp => commanded(alloc, server, Command::CatchUp),
        Call::Grab => acted(alloc, server, b'a', Event::Grab(id_a())),
        Call::Step => acted(alloc, server, b'a', Event::Step(id_a())),
        Call::RunSteps(most) => acted(alloc, server, b'a', Event::Steps(id_a(), most)),
        Call::Steps(count) => stepped(alloc, server, count),
    }
}

/// Opens session c.
fn open_c(alloc: Global, server: &mut Server) -> Returned {
    match Name::new(b"c") {
        Some(name) => acted(alloc, server, b'c', Event::Open(name)),
        None => Returned::LeftOut,
    }
}

/// Carries out a command in session a.
fn commanded(alloc: Global, server: &mut Server, asked: Command) -> Returned {
    acted(alloc, server, b'a', Event::Command(id_a(), asked))
}

/// Does what an event on a session of this name asks for.
fn acted(alloc: Global, server: &mut Server, letter: u8, event: Event) -> Returned {
    Returned::Answered(letter, tell(&act(alloc, server, event)))
}

/// Does so many check steps of session a.
fn stepped(alloc: Global, server: &mut Server, count: u8) -> Returned {
    for _ in 0..count {
        let _ = acted(alloc, server, b'a', Event::Step(id_a()));
    }
    Returned::LeftOut
}

/// Prints how loading a cell ended.
pub fn print_loaded<R: Print>(rt: &R, loaded: Option<Result<CellId, CellFault>>) -> Result<()> {
    match loaded {
        Some(Ok(_)) => println!(rt; "loaded")?,
        Some(Err(fault)) => {
            let (line, number, text) = (fault.line, fault.kind.number(), fault.kind.text());
            println!(rt; "line {line} fault {number} {text}")?;
        }
        None => println!(rt; "not idle")?,
    }
    Ok(())
}
