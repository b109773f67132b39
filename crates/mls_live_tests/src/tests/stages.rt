//! A server under a lock, and what a test asks of it and of its seats.
//!
//! What a call of a seat ensures speaks of its whole list. Each call stands apart, in a function that returns a plain
//! value and ensures nothing, so that no proof carries it further.
ghost use Rattle.std.specs.Prelude.{◌≡◌};

use crate::tests::commands::{Bar, THIN_BAR};
use crossbeam_channel::Receiver;
use mls_live::{Gate, Live, Naming, Retired, Seat, Worked, work};
use mls_server::{Name, NotOpen, OpenFault, SessionId};
use mls_session::{Command, Reply};
use std::alloc::Global;
use std::process::Abort;
use std::sync::Wait;
use std::test::Fail;

/// A server under a lock, with what its calls take of the machine.
#[derive(Drop)]
pub struct Stage<'s, N: Naming, R> {
    pub rt: &'s R,
    pub alloc: Global,
    pub live: &'s Live<N>,
}

impl<'s, N: Naming, R: Wait + Abort> Stage<'s, N, R> {
    /// Opens a session, and returns its seat or why it is refused.
    pub fn open(&self, name: &[u8]) -> Result<Result<Seat<'s, N>, OpenFault>, Fail> {
        let name = Name::new(name).ok_or("no name")?;
        Ok(self.live.seat(self.rt, self.alloc, name))
    }

    /// Opens a session, and returns its seat.
    pub fn seat(&self, name: &[u8]) -> Result<Seat<'s, N>, Fail> {
        Ok(self.open(name)??)
    }

    /// Opens a session, and returns its seat once the thin bar is painted.
    pub fn bar_seat(&self, name: &[u8]) -> Result<Seat<'s, N>, Fail> {
        let mut seat = self.seat(name)?;
        self.expect_painted(&mut seat, THIN_BAR);
        Ok(seat)
    }

    /// Returns why a session is refused, if it is.
    fn refused(&self, name: &[u8]) -> Result<Option<OpenFault>, Fail> {
        Ok(self.open(name)?.err())
    }

    /// Asserts why a session is refused.
    pub fn expect_refused(&self, name: &[u8], fault: OpenFault) -> Result<(), Fail> {
        assert_eq!(self.rt; self.refused(name)?, Some(fault));
        Ok(())
    }

    /// Carries out a command.
    pub fn command(&self, seat: &mut Seat<'_, N>, command: Command) -> Result<Reply, NotOpen> {
        seat.command(self.rt, self.alloc, command)
    }

    /// Asserts that a command is done.
    pub fn expect_done(&self, seat: &mut Seat<'_, N>, command: Command) {
        let reply = self.command(seat, command);
        assert_eq!(self.rt; reply, Ok(Reply::Done), "to {command:?}");
    }

    /// Asserts that a rectangle is painted.
    pub fn expect_painted(&self, seat: &mut Seat<'_, N>, bar: Bar) {
        let [set, paint] = bar.commands();
        self.expect_done(seat, set);
        self.expect_done(seat, paint);
    }

    /// Asserts how many squares are marked, and how many areas await checking.
    pub fn expect_count(&self, seat: &mut Seat<'_, N>, errors: u64, pending: usize) {
        let reply = self.command(seat, Command::Count);
        assert_eq!(self.rt; reply, Ok(Reply::Count { errors, pending }));
    }

    /// Returns how many entries the audit of a seat has, or `None` where its list differs.
    fn audited(&self, seat: &Seat<'_, N>) -> Option<usize> {
        match seat.audit(self.rt) {
            Ok(audited) => Some(audited.entries),
            Err(_) => None,
        }
    }

    /// Asserts how many entries the audit of a seat has.
    pub fn expect_audited(&self, seat: &Seat<'_, N>, entries: usize) {
        assert_eq!(self.rt; self.audited(seat), Some(entries));
    }

    /// Has a seat send its notices, and returns where they come in.
    pub fn notices_of(&self, seat: &mut Seat<'_, N>) -> Result<Receiver<SessionId, Global>, Fail> {
        let (to, from) = crossbeam_channel::unbounded(self.alloc)?;
        seat.notify(to);
        Ok(from)
    }

    /// Works until the notices end, or so many turns are taken, in this thread.
    pub fn work<G: Gate>(
        &self,
        notices: Receiver<SessionId, Global>,
        gate: &G,
        turns: u64,
    ) -> Worked {
        work(self.rt, self.alloc, self.live, notices, gate, turns)
    }

    /// Has a seat work its session off in one turn.
    pub fn work_off(&self, seat: &Seat<'_, N>) {
        seat.work_off(self.rt, self.alloc, 1);
    }

    /// Retires seats.
    pub fn retire(&self, seats: Vec<Seat<'_, N>>) -> Retired
        requires { N.parts ≡ 65 }
    {
        self.live.retire(self.rt, seats)
    }

    /// Retires one seat.
    pub fn retire_one(&self, seat: Seat<'_, N>) -> Result<Retired, Fail>
        requires { N.parts ≡ 65 }
    {
        let seats = vec![in self.alloc; seat]?;
        Ok(self.retire(seats))
    }

    /// Asserts what the retirement of the last seat says, by whose list and those before it so many commands were
    /// journalled.
    pub fn expect_retired(&self, seat: Seat<'_, N>, entries: u128) -> Result<(), Fail>
        requires { N.parts ≡ 65 }
    {
        let wanted = Retired {
            entries,
            listed: entries,
            out: 0,
        };
        assert_eq!(self.rt; self.retire_one(seat)?, wanted);
        Ok(())
    }

    /// Asserts how many entries the audit of the only seat has, and that as many commands were journalled.
    pub fn expect_ended(&self, seat: Seat<'_, N>, entries: u8) -> Result<(), Fail>
        requires { N.parts ≡ 65 }
    {
        self.expect_audited(&seat, usize::from(entries));
        self.expect_retired(seat, u128::from(entries))
    }
}
