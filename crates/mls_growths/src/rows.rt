//! The rows.
ghost use Rattle.std.specs.Prelude.{◌≡◌, []};
ghost use Rattle.mls_server.specs.Servers.{world_of};

use crate::calls::{Call, ServerScene};
use crate::checks::CheckScene;
use crate::frugal::FrugalCall::{
    Box, Check, Close, Count, Dump, Erase, Finish, FinishRef, GetCell, Paint, Save, What,
};
use crate::frugal::{FrugalCall, FrugalScene};
use crate::libraries::LibraryScene;
use crate::making::{Made, Making};
use crate::runs::{Change, RunScene};
use crate::scene::play;
use crate::scripts::ScriptScene;
use crate::seats::{SeatCall, play_at};
use crate::servers::{CELL_TILES, new_server, replies, stock};
use anyhow::{Context, Result};
use mls_server::Server;
use std::alloc::Global;
use std::marker::Brand;
use std::sync::Wait;
use std::sync::ledger::Blank;

/// How many times the call of a row is made, each time it is set up.
const CALLS: [u8; 3] = [0, 1, 2];

/// What a row's call is made of.
#[derive(Clone, Copy)]
pub enum Row {
    Make(Made),
    /// Loads a cell into a library by itself.
    LoadAlone,
    Seat(SeatCall),
    /// Something else is done at a server, after a script.
    Ask(&'static [u8], Asked),
}

/// What a server is asked for.
#[derive(Clone, Copy)]
pub enum Asked {
    /// Loads a cell.
    Load,
    /// A call that is made the first time, and one that is made again.
    Call([Call; 2]),
    /// Answers events, first changed so.
    Run(Change),
    Check,
    /// Serves so many of the lines first.
    Serve(usize),
    Frugal(&'static [FrugalCall]),
}

/// A bar in session a, whose rules are asked for in a wider box, and one in session b.
const TWO_BARS: &[u8] = b"%open a
a box 0 0 1 10
a paint poly
a box 0 0 2 10
%open b
b box 0 0 2 10
b paint m1
";

/// A bar in session a that takes two pieces, and one in session b.
const LONG_BAR: &[u8] = b"%open a
a box 0 0 300 1
a paint poly
%open b
b box 0 0 2 10
b paint m1
";

/// A bar in session a, and one in session b that takes two pieces.
const BAR_AND_LONG_BAR: &[u8] = b"%open a
a box 0 0 1 10
a paint poly
a box 0 0 2 10
%open b
b box 0 0 300 1
b paint poly
";

/// A cell that is placed in session a, under its box, and a bar in session b.
const PLACED: &[u8] = b"%open a
a getcell c 0 0
a box 0 0 4 4
%open b
b box 0 0 2 10
b paint m1
";

/// A cell with more tiles than a map has words, placed in session a, under its box, and a bar in session b.
const PLACED_GRID: &[u8] = b"%open a
a getcell grid 0 0
a box 0 0 32 9
%open b
b box 0 0 2 10
b paint m1
";

const OPENED: &[u8] = b"%open a\n";

/// A bar in session a, of which the check is made before the calls.
const BAR: &[u8] = b"%open a\na box 0 0 1 10\na paint poly\n";

/// A square under the least quota, one beside it, and one apart from them, which is refused.
const SMALLEST_QUOTA: [FrugalCall; 8] = [
    Box(0, 0, 10, 10),
    Paint(1),
    Box(10, 0, 20, 10),
    Paint(1),
    Box(0, 20, 1, 21),
    Paint(1),
    What,
    Count,
];

/// The whole world under the least quota, two of its corners, and a square in its middle, which is refused.
const WHOLE_WORLD: [FrugalCall; 9] = [
    Box(-1_048_576, -1_048_576, 1_048_576, 1_048_576),
    Paint(1),
    Box(-1_048_576, -1_048_576, -1_048_575, -1_048_575),
    Paint(2),
    Box(1_048_575, 1_048_575, 1_048_576, 1_048_576),
    Paint(2),
    Count,
    Box(0, 0, 1, 1),
    Paint(2),
];

/// Each other call that takes no memory.
const OTHERS: [FrugalCall; 14] = [
    FinishRef,
    Count,
    FinishRef,
    Box(0, 0, 10, 10),
    Erase(1),
    Dump,
    What,
    Check,
    Count,
    Save,
    Finish,
    Close,
    What,
    Close,
];

/// A placed cell, of which the check is made before the calls.
const PLACED_ALONE: &[u8] = b"%open a\na getcell c 0 0\n";

/// The same cell placed over itself, which leaves the check fresh, to the right, which doesn't, and beyond the world;
/// and own paint over it.
const PLACED_CELLS: [FrugalCall; 14] = [
    FinishRef,
    Count,
    GetCell(0),
    FinishRef,
    GetCell(8),
    FinishRef,
    GetCell(1_048_573),
    Box(0, 0, 4, 4),
    Erase(1),
    Dump,
    Check,
    Count,
    Save,
    Finish,
];

/// Reads a row, and sets it up and makes its call once for each number of calls.
pub fn take_all<R: Print + Wait>(rt: &R, alloc: Global, line: &str) -> Result<()> {
    let row = read_row(line)?;
    println!(rt; "{line}")?;
    for calls in CALLS {
        println!(rt; "setup")?;
        take(rt, alloc, &row, calls)?;
    }
    Ok(())
}

/// Reads a row's name, and the number after it, if there is one.
fn read_row(line: &str) -> Result<Row> {
    let mut words = line.split_whitespace();
    let name = words.next().context("no row")?;
    let number = match words.next() {
        Some(word) => Some(word.parse::<u8>().context("no number")?),
        None => None,
    };
    row_named(name, number).context("no such row")
}

/// Returns the row of this name and number.
fn row_named(name: &str, number: Option<u8>) -> Option<Row> {
    Some(match name {
        "tech_read" => Row::Make(Made::Tech),
        "pool_new" => Row::Make(Made::Pool),
        "server_new" => Row::Make(Made::Server),
        "library_load" => Row::LoadAlone,
        "server_load" => Row::Ask(b"", Asked::Load),
        "open" => asks(TWO_BARS, Call::Open),
        "save" => asks(TWO_BARS, Call::Save),
        "why" => asks(TWO_BARS, Call::Why),
        "why_dense" => asks(PLACED_GRID, Call::Why),
        "what" => asks(PLACED, Call::What),
        "grab" => asks(TWO_BARS, Call::Grab),
        "step" => asks(TWO_BARS, Call::Step),
        "check" => Row::Ask(TWO_BARS, Asked::Check),
        "check_dense" => Row::Ask(PLACED_GRID, Asked::Check),
        "catchup" => catches_up(TWO_BARS, number),
        "catchup_in_two_pieces" => catches_up(LONG_BAR, number),
        "steps_in_two_pieces" => steps_on(number),
        "run" => runs(number),
        "seat" => Row::Seat(SeatCall::Seat),
        "work" => Row::Seat(SeatCall::Work { left_out: number }),
        "retire" => Row::Seat(SeatCall::Retire),
        "serve" => serves(number),
        "smallest_quota" => takes_no_memory(OPENED, &SMALLEST_QUOTA),
        "whole_world" => takes_no_memory(OPENED, &WHOLE_WORLD),
        "other_calls" => takes_no_memory(BAR, &OTHERS),
        "placed_cells" => takes_no_memory(PLACED_ALONE, &PLACED_CELLS),
        _ => return None,
    })
}

/// The row of calls that take no memory, after a script.
fn takes_no_memory(script: &'static [u8], calls: &'static [FrugalCall]) -> Row {
    Row::Ask(script, Asked::Frugal(calls))
}

/// The row of a call of a server after a script.
fn asks(script: &'static [u8], call: Call) -> Row {
    Row::Ask(script, Asked::Call([call, call]))
}

/// The row of catching up after a script; where there is a number, so many check steps are done first in its place.
fn catches_up(script: &'static [u8], number: Option<u8>) -> Row {
    let first = number.map_or(Call::CatchUp, Call::Steps);
    Row::Ask(script, Asked::Call([first, Call::CatchUp]))
}

/// The row of at most three check steps in one call; where there is a number, so many single ones are done first in its
/// place.
fn steps_on(number: Option<u8>) -> Row {
    let first = number.map_or(Call::RunSteps(3), Call::Steps);
    Row::Ask(LONG_BAR, Asked::Call([first, Call::RunSteps(3)]))
}

/// The row of serving lines; where there is a number, so many of them.
fn serves(number: Option<u8>) -> Row {
    Row::Ask(
        TWO_BARS,
        Asked::Serve(number.map_or(usize::MAX, usize::from)),
    )
}

/// The row of a list of events; where there is a number, the event at that place is left out first, or the last is a
/// check step.
fn runs(number: Option<u8>) -> Row {
    let change = match number {
        None => Change::Nothing,
        Some(6) => Change::OneStep,
        Some(place) => Change::LeftOut(place),
    };
    Row::Ask(BAR_AND_LONG_BAR, Asked::Run(change))
}

/// Sets a row up, makes its call so many times, and prints the results and what stands.
fn take<R: Print + Wait>(rt: &R, alloc: Global, row: &Row, calls: u8) -> Result<()> {
    match *row {
        Row::Make(what) => take_making(rt, alloc, what, calls),
        Row::LoadAlone => take_library(rt, alloc, calls),
        Row::Seat(asked) => take_seat(rt, alloc, asked, calls),
        Row::Ask(script, asked) => take_server(rt, alloc, script, &asked, calls),
    }
}

/// Makes something new.
fn take_making<R: Print>(rt: &R, alloc: Global, what: Made, calls: u8) -> Result<()> {
    let mut scene = Making::new(alloc, what)?;
    play(rt, alloc, &mut scene, calls)
}

/// Loads a cell into a library by itself.
fn take_library<R: Print>(rt: &R, alloc: Global, calls: u8) -> Result<()> {
    let mut scene = LibraryScene::new(alloc)?;
    play(rt, alloc, &mut scene, calls)
}

/// Asks a server for something.
///
/// A proof takes long over each place where a server may be dropped. So it is owned here alone, and lent.
fn take_server<R: Print>(
    rt: &R,
    alloc: Global,
    script: &[u8],
    asked: &Asked,
    calls: u8,
) -> Result<()> {
    let mut server = new_server(alloc, more_tiles(asked))?;
    play_after(rt, alloc, &mut server, script, asked, calls)
}

/// Returns how many tiles the server's pool has beside those that each has.
fn more_tiles(asked: &Asked) -> u32 {
    match asked {
        Asked::Load => CELL_TILES,
        _ => 0,
    }
}

/// Loads the cells and serves a script, and then asks for something.
fn play_after<R: Print>(
    rt: &R,
    alloc: Global,
    server: &mut Server,
    script: &[u8],
    asked: &Asked,
    calls: u8,
) -> Result<()>
    requires idle { (world_of server.old).seats ≡ [] }
{
    stock(alloc, server)?;
    replies(alloc, server, script)?;
    play_asked(rt, alloc, server, asked, calls)
}

/// Asks for something.
fn play_asked<R: Print>(
    rt: &R,
    alloc: Global,
    server: &mut Server,
    asked: &Asked,
    calls: u8,
) -> Result<()> {
    match *asked {
        Asked::Load => play_calls(rt, alloc, server, [Call::Load, Call::Load], calls),
        Asked::Call(made) => play_calls(rt, alloc, server, made, calls),
        Asked::Run(change) => play_runs(rt, alloc, server, change, calls),
        Asked::Check => play_checks(rt, alloc, server, calls),
        Asked::Serve(count) => play_script(rt, alloc, server, count, calls),
        Asked::Frugal(made) => play_frugal(rt, alloc, server, made, calls),
    }
}

/// Makes calls of a server: first the one, and then the other.
fn play_calls<R: Print>(
    rt: &R,
    alloc: Global,
    server: &mut Server,
    made: [Call; 2],
    calls: u8,
) -> Result<()> {
    let mut scene = ServerScene::new(alloc, server, made)?;
    play(rt, alloc, &mut scene, calls)
}

/// Answers events.
fn play_runs<R: Print>(
    rt: &R,
    alloc: Global,
    server: &mut Server,
    change: Change,
    calls: u8,
) -> Result<()> {
    let mut scene = RunScene::new(alloc, server, change)?;
    play(rt, alloc, &mut scene, calls)
}

/// Checks a piece.
fn play_checks<R: Print>(rt: &R, alloc: Global, server: &mut Server, calls: u8) -> Result<()> {
    let mut scene = CheckScene::new(alloc, server);
    play(rt, alloc, &mut scene, calls)
}

/// Serves lines.
fn play_script<R: Print>(
    rt: &R,
    alloc: Global,
    server: &mut Server,
    count: usize,
    calls: u8,
) -> Result<()> {
    let mut scene = ScriptScene::new(alloc, server, count)?;
    play(rt, alloc, &mut scene, calls)
}

/// Makes calls that take no memory.
fn play_frugal<R: Print>(
    rt: &R,
    alloc: Global,
    server: &mut Server,
    made: &'static [FrugalCall],
    calls: u8,
) -> Result<()> {
    let mut scene = FrugalScene::new(alloc, server, made)?;
    play(rt, alloc, &mut scene, calls)
}

/// Makes a call at a server under a lock.
fn take_seat<R: Print + Wait>(rt: &R, alloc: Global, asked: SeatCall, calls: u8) -> Result<()> {
    let mut server = new_server(alloc, 0)?;
    stock(alloc, &mut server)?;
    play_at::<Brand, R>(rt, alloc, server, Blank::new(65), asked, calls)
}
