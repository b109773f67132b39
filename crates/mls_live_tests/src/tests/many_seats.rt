//! As many seats as there may be, and one more during their retirement.
ghost use Rattle.std.specs.Prelude.{◌≡◌};

use crate::tests::servers::Room;
use crate::tests::stages::Stage;
use mls_live::{Naming, Retired, Seat};
use mls_server::{Name, OpenFault};
use std::process::Abort;
use std::sync::Wait;
use std::test::Fail;
use std::thread;
use std::thread::Threads;
use std::time::Clock;

/// Room in the pool for one session more than there may be.
pub const MANY: Room = Room {
    pool: 65 * 207,
    quota: 5,
    entries: 4,
};

/// How many sessions there may be.
const MOST: u8 = 64;

/// How often a session is asked for at most.
const MOST_ASKED: u32 = 10_000_000;

/// Returns the name of a session.
fn name_of(number: u8) -> [u8; 2] {
    [b'a'.wrapping_add(number / 8), b'a'.wrapping_add(number % 8)]
}

/// A session is opened anew under the name of one whose seat is being retired with all others.
pub fn retire_many<N: Naming + Send + Sync, R: Threads + Wait + Clock + Abort + Sync>(
    stage: &Stage<'_, N, R>,
) -> Result<(), Fail>
    requires { N.parts ≡ 65 }
{
    let seats = many(stage)?;
    stage.expect_refused(b"x", OpenFault::SessionsFull)?;
    stage.expect_refused(b"aa", OpenFault::OpenAlready)?;
    let (retired, is_opened) = retire_beside(stage, seats)?;
    assert_eq!(stage.rt; retired.out, 0);
    assert!(stage.rt; is_opened, "another refusal");
    let _other = stage.seat(b"x")?;
    Ok(())
}

/// Opens as many sessions as there may be.
fn many<'s, N: Naming, R: Wait + Abort>(stage: &Stage<'s, N, R>) -> Result<Vec<Seat<'s, N>>, Fail> {
    let mut seats = Vec::new(stage.alloc);
    for number in 0..MOST {
        seats.push(stage.seat(&name_of(number))?)?;
    }
    Ok(seats)
}

/// Retires all seats while another thread asks for the session that is closed first.
fn retire_beside<N: Naming + Send + Sync, R: Threads + Wait + Abort + Sync>(
    stage: &Stage<'_, N, R>,
    seats: Vec<Seat<'_, N>>,
) -> Result<(Retired, bool), Fail>
    requires { N.parts ≡ 65 }
{
    thread::scope(
        thread::scope_env(),
        stage.rt,
        move |scope| -> Result<(Retired, bool), Fail>
            requires { N.parts ≡ 65 }
        {
            let opener = scope.spawn(move || open_again(stage))?;
            let retired = stage.retire(seats);
            Ok((retired, opener.join(stage.rt)))
        },
    )
}

/// Asks for the session of the last seat until it is opened, and returns whether it was refused because it is open, and
/// then because sessions are full. Its seat is then dropped.
fn open_again<N: Naming, R: Wait>(stage: &Stage<'_, N, R>) -> bool {
    let Some(name) = Name::new(&name_of(MOST - 1)) else {
        return false;
    };
    let mut is_closed = false;
    for _ in 0..MOST_ASKED {
        match stage.live.seat(stage.rt, stage.alloc, name).err() {
            None => return true,
            Some(OpenFault::OpenAlready) if !is_closed => {}
            Some(OpenFault::SessionsFull) => is_closed = true,
            Some(_) => return false,
        }
    }
    false
}
