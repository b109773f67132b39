//! The threads of a script: one for each session, and the workers beside them.
ghost use Rattle.std.specs.Prelude.{◌≡◌, ◌≤◌, [], false, IfOk, OnOk, length, vec_len, vec_capacity};
ghost use Rattle.mls_seat_lines.specs.SymbolTables.{book_in};
ghost use Rattle.mls_crew.specs.Countdowns.{CountsDown};
ghost use Rattle.mls_crew.specs.Scripts.{GivesGroups};

use crate::serving::{GroupText, Part, ServedSeat, serve_session};
use crate::sorting::{Fresh, Sorting};
use crossbeam_channel::Receiver;
use mls_seat_lines::{Live, Naming, Plain, Seat, SessionId, work};
use std::alloc::{AllocError, Global};
use std::sync::Wait;
use std::thread;
use std::thread::{Promise, PromisedHandle, Scope, Threads};

impl<'s, 'l, N: Naming> Promise<ServedSeat<'l, N>> for Part<'s> {
    ghost use Rattle.mls_crew.specs.Scripts.{GivesPart};

    ghost kept_by = { λ part served. IfOk served.group
        (GivesPart N.terms (book_in part.symbols.now) part.sorting.now part.session) };
}

/// Serves the requests of each session in a thread of its own while workers check, one for each receiver, closes the
/// sessions, and returns their texts.
pub fn serve_sessions<'l, N: Naming + Send + Sync, R: Threads + Wait + Sync>(
    rt: &R,
    live: &'l Live<N>,
    part: Part<'_>,
    receivers: Vec<Receiver<SessionId, Global>>,
    fresh: Vec<Fresh<'l, N>>,
) -> Result<Vec<GroupText>, AllocError>
    requires parts { N.parts ≡ 65 }
    requires paired { vec_len fresh ≡ length part.sorting.now.opened }
    ensures { IfOk result (λ groups. GivesGroups N.terms
        (book_in part.entry.symbols.now) part.entry.sorting.now groups.items) }
{
    thread::scope(
        thread::scope_env(),
        rt,
        move |scope| -> Result<Vec<GroupText>, AllocError>
            requires parts { N.parts ≡ 65 }
            requires paired { vec_len fresh ≡ length part.sorting.now.opened }
            ensures { IfOk result (λ groups. GivesGroups N.terms
                (book_in part.entry.symbols.now) part.entry.sorting.now groups.items) }
        {
            start_workers(rt, scope, part.alloc, live, receivers)?;
            let served = serve_all(rt, scope, part, fresh)?;
            // In the scope, since the workers wait for it.
            retired(rt, live, served)
        },
    )
}

/// Closes all sessions, and returns their texts.
fn retired<N: Naming, R: Wait>(
    rt: &R,
    live: &Live<N>,
    served: ServedSeats<'_, '_, N>,
) -> Result<Vec<GroupText>, AllocError>
    requires { N.parts ≡ 65 }
    ensures { IfOk result (λ groups. (served.entry.failed ≡ false) × (groups ≡ served.entry.groups)) }
{
    let ServedSeats {
        part: _,
        seats,
        groups,
        failed,
    } = served;
    let _ = live.retire(rt, seats);
    if failed {
        return Err(AllocError);
    }
    Ok(groups)
}

/// The seats of all sessions once their requests were served, in the order of opening, and their texts.
#[derive(Drop)]
struct ServedSeats<'s, 'l, N: Naming> {
    /// What was to be served.
    part: Part<'s>,
    seats: Vec<Seat<'l, N>>,
    groups: Vec<GroupText>,
    /// Whether memory for some text was refused. It isn't among the texts then.
    failed: bool,
}

impl<'s, N: Naming> ServedSeats<'s, '_, N> {
    /// Creates the texts of no session, with room for as many as there are.
    fn new(part: Part<'s>, sessions: usize) -> Result<Self, AllocError>
        ensures part { IfOk result (λ served. served.part ≡ part.entry) }
        ensures seats { IfOk result (λ served. (vec_len served.seats ≡ 0) × (sessions ≤ vec_capacity served.seats)) }
        ensures groups { IfOk result (λ served. (vec_len served.groups ≡ 0) × (sessions ≤ vec_capacity served.groups)) }
    {
        Ok(ServedSeats {
            part,
            seats: Vec::with_capacity(part.alloc, sessions)?,
            groups: Vec::with_capacity(part.alloc, sessions)?,
            failed: false,
        })
    }
}

/// Starts a worker for each receiver.
fn start_workers<'s, 'l: 's, E, N: Naming + Send + Sync + 's, R: Threads + Wait + Sync>(
    rt: &'s R,
    scope: &Scope<'s, E>,
    alloc: Global,
    live: &'l Live<N>,
    receivers: Vec<Receiver<SessionId, Global>>,
) -> Result<(), AllocError> {
    for from in receivers {
        scope.spawn(move || work(rt, alloc, live, from, &Plain, u64::MAX))?;
    }
    Ok(())
}

/// Serves the requests of each session in a thread of its own.
///
/// Where a thread can't be started, what runs ends all the same: the results of the others are taken, since one that
/// isn't taken keeps its sender.
fn serve_all<'s, 'l: 's, E, N: Naming + Send + Sync + 's, R: Threads + Wait + Sync>(
    rt: &'s R,
    scope: &Scope<'s, E>,
    part: Part<'s>,
    fresh: Vec<Fresh<'l, N>>,
) -> Result<ServedSeats<'s, 'l, N>, AllocError>
    requires { vec_len fresh ≡ length part.sorting.now.opened }
    ensures { IfOk result (λ served. served.failed ≡ false
        → GivesGroups N.terms (book_in part.entry.symbols.now) part.entry.sorting.now served.groups.items) }
{
    let served = ServedSeats::new(part, fresh.len())?;
    let mut handles = Vec::with_capacity(part.alloc, fresh.len())?;
    let started = start_seats(rt, scope, part, fresh, &mut handles);
    let served = joined(rt, handles, served);
    started?;
    Ok(served)
}

/// Starts a thread for each seat, that of the session that was opened last first.
///
/// Where a thread can't be started, the seats that are left are dropped, and their senders with them.
fn start_seats<'s, 'l: 's, E, N: Naming + Send + Sync + 's, R: Threads + Wait + Sync>(
    rt: &'s R,
    scope: &Scope<'s, E>,
    part: Part<'s>,
    mut fresh: Vec<Fresh<'l, N>>,
    handles: &mut Vec<PromisedHandle<ServedSeat<'l, N>, Part<'s>>>,
) -> Result<(), AllocError>
    requires paired { vec_len fresh ≡ length part.sorting.now.opened }
    requires none { handles.old.items ≡ [] }
    requires room { vec_len fresh ≤ vec_capacity handles.old }
    ensures all { OnOk result (vec_len handles.new ≡ length part.entry.sorting.now.opened) }
    ensures within { vec_len handles.new ≤ length part.entry.sorting.now.opened }
    ensures wanted { vec_len handles.new ≡ length part.entry.sorting.now.opened
        → CountsDown (λ session handle. handle.promise ≡ record part.entry { session = session }) 0
        handles.new.items }
{
    while let Some(seat) = fresh.pop() {
        let mine = part.of(fresh.len());
        let name = part.sorting.name(fresh.len());
        match scope.spawn_with(mine, move || serve_session(rt, mine, name, seat)) {
            Ok(handle) => handles.push_reserved(handle),
            Err(_) => return Err(AllocError),
        }
    }
    Ok(())
}

/// Takes the results of all these threads, in the order of opening.
fn joined<'s, 'l, N: Naming, R: Threads>(
    rt: &R,
    mut handles: Vec<PromisedHandle<ServedSeat<'l, N>, Part<'s>>>,
    mut served: ServedSeats<'s, 'l, N>,
) -> ServedSeats<'s, 'l, N>
    requires wanted { vec_len handles ≡ length served.part.sorting.now.opened
        → CountsDown (λ session handle. handle.promise ≡ record served.part { session = session }) 0 handles.items }
    requires seats { (vec_len served.seats ≡ 0) × (vec_len handles ≤ vec_capacity served.seats) }
    requires groups { (vec_len served.groups ≡ 0) × (vec_len handles ≤ vec_capacity served.groups) }
    ensures { vec_len handles.entry ≡ length served.entry.part.sorting.now.opened → result.failed ≡ false
        → GivesGroups N.terms (book_in served.entry.part.symbols.now) served.entry.part.sorting.now
        result.groups.items }
{
    while let Some(handle) = handles.pop() {
        let ServedSeat { seat, group } = handle.join(rt);
        served.seats.push_reserved(seat);
        match group {
            Ok(group) => served.groups.push_reserved(group),
            Err(_) => served.failed = true,
        }
    }
    served
}
