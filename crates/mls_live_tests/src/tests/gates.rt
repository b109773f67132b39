//! Gates that hold a check until something else has happened.
use mls_checker::Finding;
use mls_live::{Gate, Plain};
use mls_server::SessionId;
use mls_session::Job;
use std::alloc::{AllocError, Global};
use std::process::Abort;
use std::sync::atomic::{AtomicBool, AtomicU64, Ordering};
use std::thread;
use std::time::{Clock, Duration};

/// How many turns a thread waits for another at most.
pub const TURNS: u32 = 100_000;

/// How many microseconds a turn takes.
const MICROSECONDS: u64 = 100;

/// Something that has happened, or hasn't yet.
#[derive(Drop)]
pub struct Flag(AtomicBool);

impl Flag {
    pub fn new() -> Flag {
        Flag(AtomicBool::new(false))
    }

    pub fn raise(&self) {
        self.0.store(true, Ordering::SeqCst);
    }

    pub fn is_raised(&self) -> bool {
        self.0.load(Ordering::SeqCst)
    }

    /// Waits until it has happened, and returns whether it has in time.
    pub fn wait<R: Clock>(&self, rt: &R) -> bool {
        for _ in 0..TURNS {
            if self.is_raised() {
                return true;
            }
            thread::sleep(rt, Duration::from_micros(MICROSECONDS));
        }
        false
    }
}

/// A gate that holds each check until it is released.
#[derive(Drop)]
pub struct UntilReleased<'r, R> {
    rt: &'r R,
    /// A check has come to the gate.
    pub began: Flag,
    /// The checks are released.
    pub released: Flag,
    /// A check was held as long as a test waits.
    late: Flag,
}

impl<'r, R> UntilReleased<'r, R> {
    pub fn new(rt: &'r R) -> UntilReleased<'r, R> {
        UntilReleased {
            rt,
            began: Flag::new(),
            released: Flag::new(),
            late: Flag::new(),
        }
    }
}

impl<'r, R: Abort> UntilReleased<'r, R> {
    /// Asserts that each check was released in time, or says what wasn't done during a check.
    pub fn expect_in_time(&self, missed: &str) {
        assert!(self.rt; !self.late.is_raised(), "{missed} during the check");
    }
}

impl<'r, R: Clock> Gate for UntilReleased<'r, R> {
    fn check(&self, alloc: Global, id: SessionId, job: Job) -> Result<Finding, AllocError> {
        self.began.raise();
        if !self.released.wait(self.rt) {
            self.late.raise();
        }
        Plain.check(alloc, id, job)
    }
}

/// A gate that holds the first check until one of another session has begun.
#[derive(Drop)]
pub struct UntilOther<'r, R> {
    rt: &'r R,
    /// The number of the session that is checked first, or 0.
    first: AtomicU64,
    /// A check of another session has begun.
    other: Flag,
    /// The first check was held as long as a test waits.
    pub late: Flag,
}

impl<'r, R> UntilOther<'r, R> {
    pub fn new(rt: &'r R) -> UntilOther<'r, R> {
        UntilOther {
            rt,
            first: AtomicU64::new(0),
            other: Flag::new(),
            late: Flag::new(),
        }
    }

    /// Returns whether checks of two sessions have begun.
    pub fn has_seen_two(&self) -> bool {
        self.other.is_raised()
    }
}

impl<'r, R: Clock> Gate for UntilOther<'r, R> {
    fn check(&self, alloc: Global, id: SessionId, job: Job) -> Result<Finding, AllocError> {
        let number = id.number();
        let first = self
            .first
            .compare_exchange(0, number, Ordering::SeqCst, Ordering::SeqCst);
        match first {
            Ok(_) => {
                if !self.other.wait(self.rt) {
                    self.late.raise();
                }
            }
            Err(other) => {
                if other != number {
                    self.other.raise();
                }
            }
        }
        Plain.check(alloc, id, job)
    }
}
