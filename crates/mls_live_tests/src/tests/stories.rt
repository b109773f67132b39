//! Stories that tests play at a server under a lock.
ghost use Rattle.std.specs.Prelude.{◌≡◌, []};
ghost use Rattle.mls_server.specs.Servers.{world_of};
ghost use Rattle.mls_server.specs.Settings.{terms_for};

use crate::tests::few_turns::end_workers;
use crate::tests::holding::{check_two, paint_held};
use crate::tests::many_seats::retire_many;
use crate::tests::moments::{close_twice, try_channels};
use crate::tests::retiring::retire_four;
use crate::tests::servers::{Room, new_server};
use crate::tests::settling::settle_world;
use crate::tests::stages::Stage;
use mls_live::{Live, Naming};
use mls_server::Server;
use std::alloc::Global;
use std::marker::Brand;
use std::process::Abort;
use std::sync::Wait;
use std::sync::ledger::Blank;
use std::test::Fail;
use std::thread::Threads;
use std::time::Clock;

/// What a test does at a server under a lock, and what that shows.
#[derive(Clone, Copy)]
pub enum Story {
    PaintHeld,
    TwoChecks,
    ManySeats,
    ClosedInMidCheck,
    Channels,
    FewTurns,
    Retiring,
    Settling,
}

impl Story {
    /// Plays it, and asserts what it shows.
    fn play<N: Naming + Send + Sync, R: Threads + Wait + Clock + Abort + Sync>(
        self,
        stage: &Stage<'_, N, R>,
    ) -> Result<(), Fail>
        requires { N.parts ≡ 65 }
    {
        match self {
            Story::PaintHeld => paint_held(stage),
            Story::TwoChecks => check_two(stage),
            Story::ManySeats => retire_many(stage),
            Story::ClosedInMidCheck => close_twice(stage),
            Story::Channels => try_channels(stage),
            Story::FewTurns => end_workers(stage),
            Story::Retiring => retire_four(stage),
            Story::Settling => settle_world(stage),
        }
    }
}

/// Puts a server under a lock, and plays a story there.
fn play_at<N: Naming + Send + Sync, R: Threads + Wait + Clock + Abort + Sync>(
    rt: &R,
    alloc: Global,
    server: Server,
    blank: Blank,
    story: Story,
) -> Result<(), Fail>
    requires named { terms_for (world_of server).setting ≡ N.terms }
    requires idle { (world_of server).seats ≡ [] }
    requires blank { (blank.name ≡ N.name) × (blank.parts ≡ N.parts) }
    requires parts { N.parts ≡ 65 }
{
    let limit = server.journal_limit();
    let live = Live::<N>::new(server, limit, blank);
    let stage = Stage {
        rt,
        alloc,
        live: &live,
    };
    story.play(&stage)
}

/// Plays a story at a new server with this room.
pub fn play<R: Threads + Wait + Clock + Abort + Sync>(
    rt: &R,
    alloc: Global,
    room: Room,
    story: Story,
) -> Result<(), Fail> {
    let server = new_server(alloc, room)?;
    play_at::<Brand, R>(rt, alloc, server, Blank::new(65), story)
}
