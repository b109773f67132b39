//! Seats that are retired while a check runs, notices of closed sessions, and channels whose other end is gone.
ghost use Rattle.std.specs.Prelude.{◌≡◌};

use crate::tests::commands::{THIN_BAR, THIN_BAR_ERRORS};
use crate::tests::gates::UntilReleased;
use crate::tests::stages::Stage;
use crossbeam_channel::Receiver;
use mls_live::{Naming, Plain, Seat, Worked};
use mls_server::SessionId;
use mls_session::Command;
use std::alloc::Global;
use std::process::Abort;
use std::sync::Wait;
use std::test::Fail;
use std::thread;
use std::thread::Threads;
use std::time::Clock;

/// How many notices wait at once.
const NOTICES: u32 = 100_000;

/// Returns what a worker says that finished so many checks, and whose checks ended in no other way.
fn only_finished(finished: u64) -> Worked {
    Worked {
        finished,
        stale: 0,
        full: 0,
        refused: 0,
    }
}

/// Asserts how many checks a worker finishes, and that none of its checks ends in another way.
fn expect_finished<N: Naming, R: Wait + Abort>(
    stage: &Stage<'_, N, R>,
    notices: Receiver<SessionId, Global>,
    finished: u64,
) {
    let worked = stage.work(notices, &Plain, u64::MAX);
    assert_eq!(stage.rt; worked, only_finished(finished));
}

/// Closes the session of a seat.
fn close<N: Naming, R: Wait + Abort>(stage: &Stage<'_, N, R>, seat: Seat<'_, N>) -> Result<(), Fail>
    requires { N.parts ≡ 65 }
{
    let _ = stage.retire_one(seat)?;
    Ok(())
}

/// A session is closed while its check is held, and its name opened again, with an empty layout and with the same one.
pub fn close_twice<N: Naming + Send + Sync, R: Threads + Wait + Clock + Abort + Sync>(
    stage: &Stage<'_, N, R>,
) -> Result<(), Fail>
    requires { N.parts ≡ 65 }
{
    close_held(stage, false)?;
    close_held(stage, true)
}

/// A session is closed while its check is held, and its name opened again, with the same layout or an empty one.
fn close_held<N: Naming + Send + Sync, R: Threads + Wait + Clock + Abort + Sync>(
    stage: &Stage<'_, N, R>,
    is_drawn_again: bool,
) -> Result<(), Fail>
    requires { N.parts ≡ 65 }
{
    let gate = UntilReleased::new(stage.rt);
    close_beside_worker(stage, &gate, is_drawn_again)?;
    gate.expect_in_time("the seat wasn't retired");
    Ok(())
}

/// Closes the session beside a worker, whose late check finds no session, and leaves the new one as it is.
fn close_beside_worker<N: Naming + Send + Sync, R: Threads + Wait + Clock + Abort + Sync>(
    stage: &Stage<'_, N, R>,
    gate: &UntilReleased<'_, R>,
    is_drawn_again: bool,
) -> Result<(), Fail>
    requires { N.parts ≡ 65 }
{
    let mut a = stage.seat(b"a")?;
    let notices = stage.notices_of(&mut a)?;
    thread::scope(
        thread::scope_env(),
        stage.rt,
        move |scope| -> Result<(), Fail>
            requires { N.parts ≡ 65 }
        {
            let worker = scope.spawn(move || stage.work(notices, gate, u64::MAX))?;
            let mut a = open_in_mid_check(stage, a, gate, is_drawn_again)?;
            gate.released.raise();
            assert_eq!(stage.rt; worker.join(stage.rt), only_finished(0));
            stage.expect_count(&mut a, 0, usize::from(is_drawn_again));
            close(stage, a)
        },
    )
}

/// Paints, retires the seat once the check has begun, and opens the session again.
fn open_in_mid_check<'s, N: Naming, R: Wait + Clock + Abort>(
    stage: &Stage<'s, N, R>,
    mut old: Seat<'s, N>,
    gate: &UntilReleased<'_, R>,
    is_drawn_again: bool,
) -> Result<Seat<'s, N>, Fail>
    requires { N.parts ≡ 65 }
{
    stage.expect_painted(&mut old, THIN_BAR);
    assert!(stage.rt; gate.began.wait(stage.rt), "no check has begun");
    let id = old.id();
    close(stage, old)?;
    let mut new = stage.seat(b"a")?;
    assert!(stage.rt; new.id() != id, "an old id");
    if is_drawn_again {
        stage.expect_painted(&mut new, THIN_BAR);
    }
    Ok(new)
}

/// Notices that count for nothing, many notices, and channels and seats that are dropped.
pub fn try_channels<N: Naming, R: Wait + Abort>(stage: &Stage<'_, N, R>) -> Result<(), Fail>
    requires { N.parts ≡ 65 }
{
    odd_notices(stage)?;
    many_notices(stage)?;
    no_receiver(stage)?;
    no_sender(stage)?;
    seat_dropped_early(stage)
}

/// Among notices of a session that was closed and of ids that were never given is one that counts.
fn odd_notices<N: Naming, R: Wait + Abort>(stage: &Stage<'_, N, R>) -> Result<(), Fail>
    requires { N.parts ≡ 65 }
{
    let closed = stage.bar_seat(b"closed")?;
    let id = closed.id();
    close(stage, closed)?;
    let open = stage.bar_seat(b"open")?;
    let ids = [id, SessionId::of(0), SessionId::of(u64::MAX), open.id(), id];
    send_and_work(stage, &ids, 1)?;
    close_counted(stage, open, THIN_BAR_ERRORS, 0)
}

/// Sends notices over and over, and asserts that a worker then finishes one check, or none where there are no notices.
fn send_and_work<N: Naming, R: Wait + Abort>(
    stage: &Stage<'_, N, R>,
    ids: &[SessionId],
    rounds: u32,
) -> Result<(), Fail> {
    let (to, from) = crossbeam_channel::unbounded(stage.alloc)?;
    for _ in 0..rounds {
        for id in ids {
            assert!(stage.rt; to.send(stage.rt, *id).is_ok(), "no notice");
        }
    }
    drop(to);
    expect_finished(stage, from, u64::from(!ids.is_empty()));
    Ok(())
}

/// Asserts how many squares of a session are marked and how many areas await checking, and closes the session.
fn close_counted<N: Naming, R: Wait + Abort>(
    stage: &Stage<'_, N, R>,
    mut seat: Seat<'_, N>,
    errors: u64,
    pending: usize,
) -> Result<(), Fail>
    requires { N.parts ≡ 65 }
{
    stage.expect_count(&mut seat, errors, pending);
    close(stage, seat)
}

/// A hundred thousand notices wait, all of one session.
fn many_notices<N: Naming, R: Wait + Abort>(stage: &Stage<'_, N, R>) -> Result<(), Fail>
    requires { N.parts ≡ 65 }
{
    let seat = stage.bar_seat(b"many")?;
    send_and_work(stage, &[seat.id()], NOTICES)?;
    close_counted(stage, seat, THIN_BAR_ERRORS, 0)
}

/// The receiver is gone, and the seat goes on.
fn no_receiver<N: Naming, R: Wait + Abort>(stage: &Stage<'_, N, R>) -> Result<(), Fail>
    requires { N.parts ≡ 65 }
{
    let mut seat = stage.seat(b"alone")?;
    drop(stage.notices_of(&mut seat)?);
    stage.expect_painted(&mut seat, THIN_BAR);
    stage.expect_count(&mut seat, 0, 1);
    stage.expect_done(&mut seat, Command::CatchUp);
    stage.expect_audited(&seat, 4);
    close_counted(stage, seat, THIN_BAR_ERRORS, 0)
}

/// The sender is dropped before a worker starts, which ends at once.
fn no_sender<N: Naming, R: Wait + Abort>(stage: &Stage<'_, N, R>) -> Result<(), Fail>
    requires { N.parts ≡ 65 }
{
    let seat = stage.bar_seat(b"quiet")?;
    send_and_work(stage, &[], 0)?;
    close_counted(stage, seat, 0, 1)
}

/// A seat is dropped with its sender, and not retired: its session stays open, and what it left is checked.
fn seat_dropped_early<N: Naming, R: Wait + Abort>(stage: &Stage<'_, N, R>) -> Result<(), Fail> {
    let mut seat = stage.seat(b"dropped")?;
    let notices = stage.notices_of(&mut seat)?;
    stage.expect_painted(&mut seat, THIN_BAR);
    drop(seat);
    expect_finished(stage, notices, 1);
    Ok(())
}
