//! Checks that are held at a gate while others go on.
ghost use Rattle.std.specs.Prelude.{◌≡◌};

use crate::tests::commands::{THIN_BAR, THIN_BAR_ERRORS};
use crate::tests::gates::{UntilOther, UntilReleased};
use crate::tests::stages::Stage;
use crossbeam_channel::Receiver;
use mls_live::{Gate, Naming, Seat};
use mls_server::SessionId;
use std::alloc::Global;
use std::process::Abort;
use std::sync::Wait;
use std::test::Fail;
use std::thread;
use std::thread::Threads;
use std::time::Clock;

/// A paint is answered while a check of the same session is held.
pub fn paint_held<N: Naming + Send + Sync, R: Threads + Wait + Clock + Abort + Sync>(
    stage: &Stage<'_, N, R>,
) -> Result<(), Fail>
    requires { N.parts ≡ 65 }
{
    let gate = UntilReleased::new(stage.rt);
    paint_beside_worker(stage, &gate)?;
    assert!(stage.rt; gate.began.is_raised(), "the gate was never called");
    gate.expect_in_time("the paint wasn't answered");
    Ok(())
}

/// Paints beside a worker, whose checks pass the gate.
fn paint_beside_worker<N: Naming + Send + Sync, R: Threads + Wait + Clock + Abort + Sync>(
    stage: &Stage<'_, N, R>,
    gate: &UntilReleased<'_, R>,
) -> Result<(), Fail>
    requires { N.parts ≡ 65 }
{
    let mut painter = stage.seat(b"a")?;
    let notices = stage.notices_of(&mut painter)?;
    thread::scope(
        thread::scope_env(),
        stage.rt,
        move |scope| -> Result<(), Fail>
            requires { N.parts ≡ 65 }
        {
            scope.spawn(move || stage.work(notices, gate, u64::MAX))?;
            paint_in_mid_check(stage, painter, gate)
        },
    )
}

/// Paints, and paints again once a check has begun. The worker ends once the seat is retired.
fn paint_in_mid_check<N: Naming, R: Wait + Clock + Abort>(
    stage: &Stage<'_, N, R>,
    mut painter: Seat<'_, N>,
    gate: &UntilReleased<'_, R>,
) -> Result<(), Fail>
    requires { N.parts ≡ 65 }
{
    stage.expect_painted(&mut painter, THIN_BAR);
    assert!(stage.rt; gate.began.wait(stage.rt), "no check has begun");
    stage.expect_painted(&mut painter, THIN_BAR);
    gate.released.raise();
    stage.expect_ended(painter, 4)
}

/// Two workers check a session each, at once.
pub fn check_two<N: Naming + Send + Sync, R: Threads + Wait + Clock + Abort + Sync>(
    stage: &Stage<'_, N, R>,
) -> Result<(), Fail>
    requires { N.parts ≡ 65 }
{
    let mut a = stage.bar_seat(b"a")?;
    let mut b = stage.bar_seat(b"b")?;
    expect_two_checks(stage, &[a.id(), b.id()])?;
    stage.expect_count(&mut a, THIN_BAR_ERRORS, 0);
    stage.expect_count(&mut b, THIN_BAR_ERRORS, 0);
    stage.expect_audited(&a, 3);
    stage.expect_audited(&b, 3);
    assert_eq!(stage.rt; stage.retire_one(a)?.out, 1);
    stage.expect_retired(b, 6)
}

/// Asserts that two workers check these sessions at once.
fn expect_two_checks<N: Naming + Send + Sync, R: Threads + Wait + Clock + Abort + Sync>(
    stage: &Stage<'_, N, R>,
    sessions: &[SessionId],
) -> Result<(), Fail> {
    let (to, from) = crossbeam_channel::unbounded(stage.alloc)?;
    for id in sessions {
        assert!(stage.rt; to.send(stage.rt, *id).is_ok(), "no notice");
    }
    drop(to);
    let gate = UntilOther::new(stage.rt);
    let other = from.clone()?;
    work_twice(stage, [from, other], &gate)?;
    assert!(stage.rt;
        gate.has_seen_two(),
        "the gate wasn't called for two sessions"
    );
    assert!(stage.rt; !gate.late.is_raised(), "no two checks at once");
    Ok(())
}

/// Runs two workers until the notices end.
fn work_twice<N: Naming + Send + Sync, G: Gate + Sync, R: Threads + Wait + Abort + Sync>(
    stage: &Stage<'_, N, R>,
    notices: [Receiver<SessionId, Global>; 2],
    gate: &G,
) -> Result<(), Fail> {
    let [first, second] = notices;
    thread::scope(
        thread::scope_env(),
        stage.rt,
        move |scope| -> Result<(), Fail> {
            scope.spawn(move || stage.work(first, gate, u64::MAX))?;
            scope.spawn(move || stage.work(second, gate, u64::MAX))?;
            Ok(())
        },
    )
}
