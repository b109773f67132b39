//! Servers, and each call of them by itself.
//!
//! What a call of a server ensures speaks of all its sessions, and a proof carries it to the end of the function that
//! makes the call. So each call stands apart, in a function that ensures nothing.
ghost use Rattle.std.specs.Prelude.{◌≡◌, [], IfOk, OnOk};
ghost use Rattle.mls_server.specs.Servers.{world_of};

use anyhow::{Context, Result};
use mls_checker::Finding;
use mls_edgerule::compile;
use mls_errorplane::Outcome;
use mls_geom::Rect;
use mls_library::{CellFault, CellId};
use mls_server::{
    Answer, Capacity, Event, GrabFault, Limits, Name, NotOpen, OpenFault, Server, SessionId,
};
use mls_session::{Command, Quota, Reply, StepRun, Stepped};
use mls_tech::{TECHNOLOGY_M, Tech};
use mls_wire::{Response, ServeFault, Watched, push_response, push_saved, serve};
use std::alloc::{AllocError, Global};

/// How many tiles a session reserves under the least quota: 69 for each of three planes.
const SESSION: u32 = 3 * 69;

/// The name of the cell that servers have, and its file: 5 tiles on each of two planes.
pub const CELL_NAME: &[u8] = b"c";

pub const CELL: &[u8] = b"magic
tech M
<< poly >>
rect 0 0 2 4
<< m1 >>
rect 1 0 4 3
<< end >>
";

/// How many tiles the cell takes.
pub const CELL_TILES: u32 = 10;

/// The name of the other cell that servers have, and its file: a grid of diffusion, and a bar of poly beside it.
const GRID_NAME: &[u8] = b"grid";

const GRID: &[u8] = b"magic
tech M
<< ndiff >>
rect 0 0 1 9
rect 2 0 3 9
rect 4 0 5 9
rect 6 0 7 9
rect 8 0 9 9
rect 10 0 11 9
rect 12 0 13 9
rect 14 0 15 9
rect 16 0 17 9
rect 18 0 19 9
rect 20 0 21 9
rect 22 0 23 9
rect 24 0 25 9
rect 26 0 27 9
rect 0 1 27 2
rect 0 3 27 4
rect 0 5 27 6
rect 0 7 27 8
<< poly >>
rect 29 0 30 9
<< end >>
";

/// How many tiles that cell takes: 27 in each of 5 rows and 10 others on one plane, and one on the other.
const GRID_TILES: u32 = 146;

/// The first two ids that a server gives.
pub fn id_a() -> SessionId {
    SessionId::of(1)
}

pub fn id_b() -> SessionId {
    SessionId::of(2)
}

/// Creates a server with technology M and the least quota, whose pool has room for its cells and four sessions, and so
/// many tiles more.
pub fn new_server(alloc: Global, more: u32) -> Result<Server>
    ensures { IfOk result (λ server. (world_of server).seats ≡ []) }
{
    let tiles = CELL_TILES + GRID_TILES + 4 * SESSION;
    let capacity = Capacity::new(tiles.saturating_add(more)).context("no pool")?;
    let quota = Quota::new(5).context("no quota")?;
    let tech = Tech::read(alloc, TECHNOLOGY_M)?;
    let rules = compile(&tech)?;
    let limits = Limits {
        quota,
        ..Limits::default()
    };
    Ok(Server::new(alloc, tech, rules, capacity, limits)?)
}

/// Loads the cells into a server.
pub fn stock(alloc: Global, server: &mut Server) -> Result<()>
    requires idle { (world_of server.old).seats ≡ [] }
    ensures idle { OnOk result ((world_of server.new).seats ≡ []) }
{
    stock_cell(alloc, server, CELL_NAME, CELL)?;
    stock_cell(alloc, server, GRID_NAME, GRID)
}

/// Loads a cell of this name into a server.
fn stock_cell(alloc: Global, server: &mut Server, name: &[u8], file: &[u8]) -> Result<()>
    requires idle { (world_of server.old).seats ≡ [] }
    ensures idle { OnOk result ((world_of server.new).seats ≡ []) }
{
    server.load(alloc, name, file)?;
    Ok(())
}

/// Serves a script, and returns the replies.
pub fn replies(alloc: Global, server: &mut Server, script: &[u8]) -> Result<Vec<u8>> {
    let mut input = Watched::new(script);
    let mut output = Watched::new(Vec::new(alloc));
    serve(alloc, server, &mut input, &mut output)?;
    Ok(output.into_inner())
}

/// Serves a script whose replies go to a list that is long enough, and returns how it ended.
pub fn serve_into(
    alloc: Global,
    server: &mut Server,
    script: &[u8],
    output: Vec<u8>,
) -> (Result<(), ServeFault>, Vec<u8>) {
    let mut input = Watched::new(script);
    let mut output = Watched::new(output);
    let ended = serve(alloc, server, &mut input, &mut output);
    (ended, output.into_inner())
}

/// Loads a cell of this name with the one file, or returns `None` where a session is open.
pub fn load(alloc: Global, server: &mut Server, name: &[u8]) -> Option<Result<CellId, CellFault>> {
    if !server.is_idle() {
        return None;
    }
    Some(server.load(alloc, name, CELL))
}

/// Does what an event asks for.
pub fn act(alloc: Global, server: &mut Server, event: Event) -> Answer {
    server.act(alloc, &event)
}

/// Answers events.
pub fn run(
    alloc: Global,
    server: &mut Server,
    events: &[Event],
) -> Result<Vec<Answer>, AllocError> {
    server.run(alloc, events)
}

/// Saves a layout.
pub fn save(server: &mut Server, id: SessionId, out: &mut Vec<u8>) -> Result<Reply, NotOpen> {
    server.save(id, out)
}

/// Carries out a command in a session.
pub fn command(
    alloc: Global,
    server: &mut Server,
    id: SessionId,
    asked: Command,
) -> Result<Reply, NotOpen> {
    server.command(alloc, id, asked)
}

/// Closes a session.
pub fn close(server: &mut Server, id: SessionId) -> Result<(), NotOpen> {
    server.close(id)
}

/// Finishes a check of a session.
pub fn finish(server: &mut Server, id: SessionId, finding: Finding) -> Result<Outcome, NotOpen> {
    server.finish(id, finding)
}

/// Finishes a check of a session, and keeps what it found.
pub fn finish_ref(
    server: &mut Server,
    id: SessionId,
    finding: &Finding,
) -> Result<Outcome, NotOpen> {
    server.finish_ref(id, finding)
}

/// What is printed of the answer to an event whose answer has no text.
#[derive(Clone, Copy)]
pub enum Told {
    Opened(Result<SessionId, OpenFault>),
    Replied(Result<Reply, NotOpen>),
    /// The piece of a job.
    Grabbed(Result<Option<Rect>, GrabFault>),
    Stepped(Result<Stepped, NotOpen>),
    SteppedTimes(Result<StepRun, NotOpen>),
    /// Another answer, that to an event which changes nothing.
    Nothing,
}

/// Returns what is printed of an answer.
pub fn tell(answer: &Answer) -> Told {
    match answer {
        Answer::Opened(opened) => Told::Opened(*opened),
        Answer::Commanded(replied) => Told::Replied(*replied),
        Answer::Grabbed(Ok(Some(job))) => Told::Grabbed(Ok(Some(job.piece))),
        Answer::Grabbed(Ok(None)) => Told::Grabbed(Ok(None)),
        Answer::Grabbed(Err(fault)) => Told::Grabbed(Err(*fault)),
        Answer::Stepped(stepped) => Told::Stepped(*stepped),
        Answer::SteppedTimes(run) => Told::SteppedTimes(*run),
        _ => Told::Nothing,
    }
}

/// Prints the answer to an event on a session: the piece of a job, or else the reply line.
pub fn print_told<R: Print>(
    rt: &R,
    alloc: Global,
    server: &Server,
    letter: u8,
    told: Told,
) -> Result<()> {
    match told {
        Told::Opened(opened) => print_answer(rt, alloc, server, letter, Answer::Opened(opened)),
        Told::Replied(replied) => print_reply(rt, alloc, server, letter, replied, b""),
        Told::Grabbed(grabbed) => print_grabbed(rt, letter, grabbed),
        Told::Stepped(stepped) => print_answer(rt, alloc, server, letter, Answer::Stepped(stepped)),
        Told::SteppedTimes(run) => print_answer(
            rt,
            alloc,
            server,
            letter,
            Answer::SteppedTimes(run),
        ),
        Told::Nothing => Ok(println!(rt; "left out")?),
    }
}

/// Prints a reply, and the text that comes with it.
pub fn print_reply<R: Print>(
    rt: &R,
    alloc: Global,
    server: &Server,
    letter: u8,
    replied: Result<Reply, NotOpen>,
    with: &[u8],
) -> Result<()> {
    let name = Name::new(&[letter]).context("no name")?;
    let mut text = Vec::new(alloc);
    push_saved(server, &name, replied, with, &mut text)?;
    rt.write_all(&text)?;
    Ok(())
}

/// Prints the reply line of an answer.
fn print_answer<R: Print>(
    rt: &R,
    alloc: Global,
    server: &Server,
    letter: u8,
    answer: Answer,
) -> Result<()> {
    let mut text = Vec::new(alloc);
    push_answer(server, letter, answer, &mut text)?;
    rt.write_all(&text)?;
    Ok(())
}

/// Appends the reply line of an answer to an event on a session of this name, if it is one.
fn push_answer(
    server: &Server,
    letter: u8,
    answer: Answer,
    text: &mut Vec<u8>,
) -> Result<(), AllocError> {
    match Name::new(&[letter]) {
        Some(name) => push_response(server, 1, &Response::Answered(name, answer), text),
        None => Ok(()),
    }
}

/// Prints the piece of a job.
fn print_grabbed<R: Print>(
    rt: &R,
    letter: u8,
    grabbed: Result<Option<Rect>, GrabFault>,
) -> Result<()> {
    let name = char::from(letter);
    match grabbed {
        Ok(Some(piece)) => {
            let (left, bottom) = (piece.left(), piece.bottom());
            let (right, top) = (piece.right(), piece.top());
            println!(rt; "{name} grab {left} {bottom} {right} {top}")?;
        }
        Ok(None) => println!(rt; "{name} grab none")?,
        Err(fault) => println!(rt; "{name} grab {fault}")?,
    }
    Ok(())
}
