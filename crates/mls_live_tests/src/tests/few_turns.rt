//! Workers that may take no turn, or one.
ghost use Rattle.std.specs.Prelude.{◌≡◌};

use crate::tests::commands::{THIN_BAR, THIN_BAR_ERRORS};
use crate::tests::stages::Stage;
use crossbeam_channel::{Receiver, Sender};
use mls_live::{Naming, Plain, Seat};
use mls_server::SessionId;
use std::alloc::Global;
use std::process::Abort;
use std::sync::Wait;
use std::test::Fail;

/// Workers that may take too few turns leave notices to the next one.
pub fn end_workers<N: Naming, R: Wait + Abort>(stage: &Stage<'_, N, R>) -> Result<(), Fail>
    requires { N.parts ≡ 65 }
{
    let (to, from) = crossbeam_channel::unbounded(stage.alloc)?;
    let mut a = painter(stage, b"a", to.clone()?)?;
    let mut b = painter(stage, b"b", to)?;
    expect_left(stage, &mut a, &mut b, &from)?;
    stage.expect_audited(&b, 4);
    assert_eq!(stage.rt; stage.retire_one(a)?.out, 1);
    stage.expect_retired(b, 8)
}

/// Opens a session that sends its notices here, and paints the thin bar.
fn painter<'s, N: Naming, R: Wait + Abort>(
    stage: &Stage<'s, N, R>,
    name: &[u8],
    notices: Sender<SessionId, Global>,
) -> Result<Seat<'s, N>, Fail> {
    let mut seat = stage.seat(name)?;
    seat.notify(notices);
    stage.expect_painted(&mut seat, THIN_BAR);
    Ok(seat)
}

/// Asserts that a worker that may take no turn leaves both notices, and one that may take one turn the second.
fn expect_left<N: Naming, R: Wait + Abort>(
    stage: &Stage<'_, N, R>,
    a: &mut Seat<'_, N>,
    b: &mut Seat<'_, N>,
    notices: &Receiver<SessionId, Global>,
) -> Result<(), Fail> {
    expect_finished(stage, notices, 0)?;
    stage.expect_count(a, 0, 1);
    expect_finished(stage, notices, 1)?;
    stage.expect_count(a, THIN_BAR_ERRORS, 0);
    stage.expect_count(b, 0, 1);
    expect_finished(stage, notices, 1)?;
    stage.expect_count(b, THIN_BAR_ERRORS, 0);
    Ok(())
}

/// Asserts that a worker finishes as many checks as it may take turns.
fn expect_finished<N: Naming, R: Wait + Abort>(
    stage: &Stage<'_, N, R>,
    notices: &Receiver<SessionId, Global>,
    turns: u64,
) -> Result<(), Fail> {
    let worked = stage.work(notices.clone()?, &Plain, turns);
    assert_eq!(stage.rt; worked.finished, turns);
    Ok(())
}
