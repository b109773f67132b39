//! Pieces that are settled, since their marks are known to be right.
ghost use Rattle.std.specs.Prelude.{◌≡◌};

use crate::tests::stages::Stage;
use mls_live::{Naming, Plain};
use mls_session::Command;
use std::process::Abort;
use std::sync::Wait;
use std::test::Fail;

/// Sets the box to the whole world.
const WORLD: Command = Command::Box {
    left: -1_048_576,
    bottom: -1_048_576,
    right: 1_048_576,
    top: 1_048_576,
};

/// How many pieces the world has: rows of 8192 pieces, each of which has 256 rows of 256 squares.
const PIECES: u64 = 8192 * 8192;

/// An empty world is done after its first piece, by a worker in one turn, and then by the seat in one.
pub fn settle_world<N: Naming, R: Wait + Abort>(stage: &Stage<'_, N, R>) -> Result<(), Fail>
    requires { N.parts ≡ 65 }
{
    let mut a = stage.seat(b"a")?;
    stage.expect_done(&mut a, WORLD);
    let notices = stage.notices_of(&mut a)?;
    stage.expect_done(&mut a, Command::Check);
    stage.expect_count(&mut a, 0, 1);
    assert_eq!(stage.rt; stage.work(notices, &Plain, 1).finished, PIECES);
    stage.expect_count(&mut a, 0, 0);
    stage.expect_done(&mut a, Command::Check);
    stage.expect_count(&mut a, 0, 1);
    stage.work_off(&a);
    stage.expect_count(&mut a, 0, 0);
    stage.expect_ended(a, 7)
}
