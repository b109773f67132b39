//! Checks of pieces, one after another and each off the lock.
ghost use Rattle.std.specs.Prelude.{◌≡◌, IfOk, IfSome};
ghost use Rattle.mls_server.specs.mls_checker.Halos.{zone_of};

use super::{Gate, Live, Naming, Worked};
use mls_server::{Finding, GrabFault, Job, NotOpen, Outcome, SessionId};
use std::alloc::Global;
use std::sync::Wait;
use std::thread;

/// Who grabs pieces.
#[derive(Clone, Copy)]
pub enum Grabber {
    /// A worker, which leaves a session alone that another has in hand, or that its seat has claimed.
    Worker,
    /// The session's own seat.
    Seat,
}

/// What pieces are checked with, and by whom.
#[derive(Drop)]
pub struct Checks<'l, N: Naming, G> {
    pub alloc: Global,
    pub live: &'l Live<N>,
    pub gate: &'l G,
    pub by: Grabber,
}

/// How a turn ended.
#[derive(Clone, Copy)]
pub enum Turn {
    /// The session isn't open, or is left to someone else: it was no turn.
    NotTaken,
    /// Nothing awaits checking, or the session was closed meanwhile.
    Over,
    /// The marks of so many pieces are right: the one that was checked, and those that were settled after it.
    Finished(u64),
    /// The layout had changed meanwhile, or the piece was checked by someone else.
    Stale,
    /// The marks would have taken more tiles than a plane may have.
    Full,
    /// Memory ran out.
    Refused,
}

impl Turn {
    /// Returns whether another turn may follow.
    fn goes_on(&self) -> bool {
        matches!(self, Turn::Finished(_) | Turn::Stale)
    }
}

impl<N: Naming, G: Gate> Checks<'_, N, G> {
    /// Checks a session piece by piece, until none of its areas awaits checking, it isn't open or is left to someone
    /// else, a piece's marks have no room, memory runs out, or so many jobs were asked for. After each piece that is
    /// finished it settles, in a hold of the lock of its own, those whose marks are then known to be right.
    ///
    /// Counts how the checks ended, and returns how many turns are left.
    pub fn work_off<R: Wait>(&self, rt: &R, id: SessionId, turns: u64, worked: &mut Worked) -> u64 {
        let mut left = turns;
        while left > 0 {
            let turn = self.turn(rt, id);
            if matches!(turn, Turn::NotTaken) {
                break;
            }
            left -= 1;
            worked.count(&turn);
            if !turn.goes_on() {
                break;
            }
            // Lines of designers go first.
            thread::yield_now();
        }
        left
    }

    /// Checks the first piece of a session that awaits checking.
    fn turn<R: Wait>(&self, rt: &R, id: SessionId) -> Turn {
        let grabbed = match self.grab(rt, id) {
            None | Some(Err(GrabFault::NotOpen)) => return Turn::NotTaken,
            Some(grabbed) => grabbed,
        };
        let job = match grabbed {
            Ok(Some(job)) => job,
            Ok(None) => return Turn::Over,
            Err(_) => return Turn::Refused,
        };
        let Ok(finding) = self.gate.check(self.alloc, id, job) else {
            self.give_up(rt, id);
            return Turn::Refused;
        };
        match self.finish(rt, id, &finding) {
            Ok(Outcome::Finished) => {
                let settled = self.live.desk.lock(rt).settle(id);
                Turn::Finished(settled.unwrap_or(0).saturating_add(1))
            }
            Ok(Outcome::Stale) => Turn::Stale,
            Ok(Outcome::Full) => Turn::Full,
            Err(_) => Turn::Over,
        }
    }

    /// Returns what a check of the session's first piece needs, if an area awaits checking, or `None` where the session
    /// is left to someone else.
    fn grab<R: Wait>(&self, rt: &R, id: SessionId) -> Option<Result<Option<Job>, GrabFault>>
        ensures zone { IfSome result (λ grabbed. IfOk grabbed (λ found.
            IfSome found (λ job. job.snapshot.zone ≡ zone_of job.rules job.piece))) }
    {
        match self.by {
            Grabber::Worker => self.live.desk.lock(rt).grab_for_worker(self.alloc, id),
            Grabber::Seat => Some(self.live.desk.lock(rt).grab(self.alloc, id)),
        }
    }

    /// Marks what was found.
    fn finish<R: Wait>(
        &self,
        rt: &R,
        id: SessionId,
        finding: &Finding,
    ) -> Result<Outcome, NotOpen> {
        match self.by {
            Grabber::Worker => self.live.desk.lock(rt).finish_for_worker(id, finding),
            Grabber::Seat => self.live.desk.lock(rt).finish(id, finding),
        }
    }

    /// Notes that nothing was found.
    fn give_up<R: Wait>(&self, rt: &R, id: SessionId) {
        match self.by {
            Grabber::Worker => self.live.desk.lock(rt).give_up(id),
            Grabber::Seat => {}
        }
    }
}
