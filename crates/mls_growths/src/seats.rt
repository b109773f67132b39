//! Seats and workers at a server under a lock.
ghost use Rattle.std.specs.Prelude.{◌≡◌, []};
ghost use Rattle.mls_server.specs.Servers.{world_of};
ghost use Rattle.mls_server.specs.Settings.{terms_for};

use crate::scene::{Scene, play};
use crate::shown::print_joined;
use anyhow::Result;
use crossbeam_channel::Receiver;
use mls_kinds::Kind;
use mls_live::{Live, Naming, Plain, Retired, Seat, Worked, work};
use mls_server::{Name, NotOpen, OpenFault, Server, SessionId};
use mls_session::{Command, Look, Looked, Reply};
use std::alloc::Global;
use std::mem::replace;
use std::sync::Wait;
use std::sync::ledger::Blank;

/// A call at a server under a lock.
#[derive(Clone, Copy)]
pub enum SeatCall {
    /// Opens session c.
    Seat,
    /// Checks the sessions of two notices; first only one, where the other is left out.
    Work { left_out: Option<u8> },
    /// Audits all seats, and retires them.
    Retire,
}

/// The box of the bar that is painted at each seat.
const BAR: Command = Command::Box {
    left: 0,
    bottom: 0,
    right: 1,
    top: 10,
};

/// The most checks that a worker does in one call.
const TURNS: u64 = 8;

/// Seats at a server under a lock, beside which another is taken.
#[derive(Drop)]
struct SeatScene<'s, 'l, N: Naming> {
    live: &'l Live<N>,
    seats: &'s mut Vec<Seat<'l, N>>,
}

/// Seats at a server under a lock, in whose layouts a bar awaits checking, and notices for workers.
#[derive(Drop)]
struct WorkScene<'s, 'l, N: Naming> {
    live: &'l Live<N>,
    seats: &'s mut Vec<Seat<'l, N>>,
    notices: Vec<Receiver<SessionId, Global>>,
}

/// Makes a call at a server under a lock so many times, and prints its answers and what stands.
pub fn play_at<N: Naming, R: Print + Wait>(
    rt: &R,
    alloc: Global,
    server: Server,
    blank: Blank,
    asked: SeatCall,
    calls: u8,
) -> Result<()>
    requires named { terms_for (world_of server).setting ≡ N.terms }
    requires idle { (world_of server).seats ≡ [] }
    requires blank { (blank.name ≡ N.name) × (blank.parts ≡ N.parts) }
    requires parts { N.parts ≡ 65 }
{
    let limit = server.journal_limit();
    let live = Live::<N>::new(server, limit, blank);
    play_seated(rt, alloc, &live, asked, calls)
}

/// Makes a call at a server under a lock so many times.
fn play_seated<N: Naming, R: Print + Wait>(
    rt: &R,
    alloc: Global,
    live: &Live<N>,
    asked: SeatCall,
    calls: u8,
) -> Result<()>
    requires parts { N.parts ≡ 65 }
{
    let mut seats = Vec::new(alloc);
    seat_two(rt, alloc, live, &mut seats)?;
    match asked {
        SeatCall::Work { left_out } => play_work(rt, alloc, live, &mut seats, left_out, calls),
        SeatCall::Seat => play_seats(rt, alloc, live, &mut seats, calls),
        SeatCall::Retire => play_retired(rt, alloc, live, &mut seats, calls),
    }
}

/// Opens sessions a and b, and paints a bar in each.
fn seat_two<'l, N: Naming, R: Wait>(
    rt: &R,
    alloc: Global,
    live: &'l Live<N>,
    seats: &mut Vec<Seat<'l, N>>,
) -> Result<()> {
    for letter in *b"ab" {
        seats.push(painted(rt, alloc, live, letter)?)?;
    }
    Ok(())
}

/// Opens session c.
fn play_seats<'l, N: Naming, R: Print + Wait>(
    rt: &R,
    alloc: Global,
    live: &'l Live<N>,
    seats: &mut Vec<Seat<'l, N>>,
    calls: u8,
) -> Result<()> {
    let mut scene = SeatScene { live, seats };
    play(rt, alloc, &mut scene, calls)
}

/// Checks the sessions of the notices, where one may be left out first.
fn play_work<'l, N: Naming, R: Print + Wait>(
    rt: &R,
    alloc: Global,
    live: &'l Live<N>,
    seats: &mut Vec<Seat<'l, N>>,
    left_out: Option<u8>,
    calls: u8,
) -> Result<()> {
    let mut notices = Vec::new(alloc);
    // The last is taken first.
    for left_out in [None, left_out] {
        notices.push(notices_of(rt, alloc, seats, left_out)?)?;
    }
    let mut scene = WorkScene {
        live,
        seats,
        notices,
    };
    play(rt, alloc, &mut scene, calls)
}

/// Retires seats, and then no seat, so many times in all, and prints what this returns and what stands.
fn play_retired<'l, N: Naming, R: Print + Wait>(
    rt: &R,
    alloc: Global,
    live: &'l Live<N>,
    seats: &mut Vec<Seat<'l, N>>,
    calls: u8,
) -> Result<()>
    requires parts { N.parts ≡ 65 }
{
    println!(rt; "made")?;
    if calls == 0 {
        println!(rt; "done")?;
        return show_seats(rt, alloc, live, seats);
    }
    let first = retired(rt, live, replace(seats, Vec::new(alloc)));
    println!(rt; "done")?;
    print_retired(rt, first)?;
    for _ in 1..calls {
        print_retired(rt, retired(rt, live, Vec::new(alloc)))?;
    }
    show_seats(rt, alloc, live, seats)
}

/// Prints how many seats had the list of the journal, and how the journals stand to the lists.
fn print_retired<R: Print>(rt: &R, retired: (usize, Retired)) -> Result<()> {
    let (alike, retired) = retired;
    let (entries, listed) = (retired.entries, retired.listed);
    println!(rt;
        "{alike} audited: {entries} entries {listed} listed {} out",
        retired.out
    )?;
    Ok(())
}

/// Opens a session, and paints a bar in it.
fn painted<'l, N: Naming, R: Wait>(
    rt: &R,
    alloc: Global,
    live: &'l Live<N>,
    letter: u8,
) -> Result<Seat<'l, N>> {
    let mut seat = match opened(rt, alloc, live, letter) {
        Some(opened) => opened?,
        None => anyhow::bail!("no name"),
    };
    paint_bar(rt, alloc, &mut seat);
    Ok(seat)
}

/// Paints a bar at a seat.
fn paint_bar<N: Naming, R: Wait>(rt: &R, alloc: Global, seat: &mut Seat<'_, N>) {
    for command in [BAR, Command::Paint(Some(Kind::new(1)))] {
        let _ = called(rt, alloc, seat, command);
    }
}

/// Opens a session of this name, if it is one.
fn opened<'l, N: Naming, R: Wait>(
    rt: &R,
    alloc: Global,
    live: &'l Live<N>,
    letter: u8,
) -> Option<Result<Seat<'l, N>, OpenFault>> {
    Some(live.seat(rt, alloc, Name::new(&[letter])?))
}

/// Carries out a command.
fn called<N: Naming, R: Wait>(
    rt: &R,
    alloc: Global,
    seat: &mut Seat<'_, N>,
    command: Command,
) -> Result<Reply, NotOpen> {
    seat.command(rt, alloc, command)
}

/// Saves a layout.
fn saved<N: Naming, R: Wait>(
    rt: &R,
    seat: &mut Seat<'_, N>,
    out: &mut Vec<u8>,
) -> Result<Reply, NotOpen> {
    seat.save(rt, out)
}

/// Returns how many entries a seat's list has, if it is that of the journal.
fn audited<N: Naming, R: Wait>(rt: &R, seat: &Seat<'_, N>) -> Option<usize> {
    match seat.audit(rt) {
        Ok(audited) => Some(audited.entries),
        Err(_) => None,
    }
}

/// Checks the sessions of the notices.
fn worked<N: Naming, R: Wait>(
    rt: &R,
    alloc: Global,
    live: &Live<N>,
    notices: Receiver<SessionId, Global>,
) -> Worked {
    work(rt, alloc, live, notices, &Plain, TURNS)
}

/// Audits seats, and retires them.
fn retired<N: Naming, R: Wait>(rt: &R, live: &Live<N>, seats: Vec<Seat<'_, N>>) -> (usize, Retired)
    requires parts { N.parts ≡ 65 }
{
    let mut alike: usize = 0;
    for seat in &seats {
        if audited(rt, seat).is_some() {
            alike = alike.saturating_add(1);
        }
    }
    (alike, live.retire(rt, seats))
}

/// Returns notices of the sessions of seats, but for the one at this place.
fn notices_of<N: Naming, R: Wait>(
    rt: &R,
    alloc: Global,
    seats: &[Seat<'_, N>],
    left_out: Option<u8>,
) -> Result<Receiver<SessionId, Global>> {
    let (to, from) = crossbeam_channel::unbounded(alloc)?;
    let mut place: u8 = 0;
    for seat in seats {
        if left_out != Some(place) {
            to.send(rt, seat.id())?;
        }
        place = place.saturating_add(1);
    }
    Ok(from)
}

impl<'l, N: Naming, R: Print + Wait> Scene<R> for SeatScene<'_, 'l, N> {
    /// `None` where there is no such name.
    type Answer = Option<Result<Seat<'l, N>, OpenFault>>;

    fn call(&mut self, rt: &R, alloc: Global, _turn: u8) -> Option<Result<Seat<'l, N>, OpenFault>> {
        opened(rt, alloc, self.live, b'c')
    }

    fn print(
        &mut self,
        rt: &R,
        _alloc: Global,
        answer: Option<Result<Seat<'l, N>, OpenFault>>,
    ) -> Result<()> {
        show_opened(rt, b'c', answer, self.seats)
    }

    fn show(&mut self, rt: &R, alloc: Global) -> Result<()> {
        show_seats(rt, alloc, self.live, self.seats)
    }
}

impl<N: Naming, R: Print + Wait> Scene<R> for WorkScene<'_, '_, N> {
    /// `None` where the notices were used up.
    type Answer = Option<Worked>;

    fn call(&mut self, rt: &R, alloc: Global, _turn: u8) -> Option<Worked> {
        let notices = self.notices.pop()?;
        Some(worked(rt, alloc, self.live, notices))
    }

    fn print(&mut self, rt: &R, _alloc: Global, answer: Option<Worked>) -> Result<()> {
        match answer {
            Some(worked) => print_worked(rt, worked),
            None => Ok(println!(rt; "nothing")?),
        }
    }

    fn show(&mut self, rt: &R, alloc: Global) -> Result<()> {
        show_seats(rt, alloc, self.live, self.seats)
    }
}

/// Prints what stands at seats, and the ids of as many more as there is room for.
fn show_seats<'l, N: Naming, R: Print + Wait>(
    rt: &R,
    alloc: Global,
    live: &'l Live<N>,
    seats: &mut Vec<Seat<'l, N>>,
) -> Result<()> {
    for seat in seats.iter_mut() {
        show_seat(rt, alloc, seat)?;
    }
    for letter in *b"pqrst" {
        show_opened(rt, letter, opened(rt, alloc, live, letter), seats)?;
    }
    Ok(())
}

/// Prints how opening a session of this name ended, and keeps its seat.
fn show_opened<'l, N: Naming, R: Print>(
    rt: &R,
    letter: u8,
    opened: Option<Result<Seat<'l, N>, OpenFault>>,
    seats: &mut Vec<Seat<'l, N>>,
) -> Result<()> {
    let name = char::from(letter);
    match opened {
        Some(Ok(seat)) => {
            let number = seat.id().number();
            seats.push(seat)?;
            println!(rt; "{name} seat {number}")?;
        }
        Some(Err(fault)) => println!(rt; "{name} refused open {} {fault}", fault.number())?,
        None => {}
    }
    Ok(())
}

/// Prints what a worker did.
fn print_worked<R: Print>(rt: &R, worked: Worked) -> Result<()> {
    let Worked {
        finished,
        stale,
        full,
        refused,
    } = worked;
    println!(rt; "finished {finished} stale {stale} full {full} refused {refused}")?;
    Ok(())
}

/// Prints the list of a seat, its layout, and its areas and marks, before and after all is checked.
fn show_seat<N: Naming, R: Print + Wait>(
    rt: &R,
    alloc: Global,
    seat: &mut Seat<'_, N>,
) -> Result<()> {
    let number = seat.id().number();
    match audited(rt, seat) {
        Some(entries) => println!(rt; "seat {number} audited {entries}")?,
        None => println!(rt; "seat {number} differs")?,
    }
    match called(rt, alloc, seat, Command::Count) {
        Ok(Reply::Count { errors, pending }) => {
            println!(rt; "count {errors} errors {pending} pending")?;
        }
        _ => println!(rt; "no count")?,
    }
    let mut text = Vec::new(alloc);
    if saved(rt, seat, &mut text).is_ok() {
        print_joined(rt, &text)?;
    }
    print_marks(rt, alloc, seat)?;
    let _ = called(rt, alloc, seat, Command::CatchUp);
    print_marks(rt, alloc, seat)
}

/// Prints the layout of a seat with its areas and marks.
fn print_marks<N: Naming, R: Print + Wait>(
    rt: &R,
    alloc: Global,
    seat: &Seat<'_, N>,
) -> Result<()> {
    let mut text = Vec::new(alloc);
    match seat.look(rt, alloc, Look::Marks, &mut text) {
        Ok(Looked::Marked(lines)) => print!(rt; "marked {lines}; ")?,
        _ => print!(rt; "no marks")?,
    }
    print_joined(rt, &text)
}
