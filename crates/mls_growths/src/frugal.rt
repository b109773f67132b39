//! Calls that take no memory.
use crate::ready::Ready;
use crate::scene::Scene;
use crate::servers::{CELL_NAME, close, command, finish, finish_ref, id_a, print_reply};
use crate::shown::show_server;
use anyhow::Result;
use arrayvec::ArrayVec;
use mls_checker::Finding;
use mls_errorplane::Outcome;
use mls_kinds::{Kind, KindSet};
use mls_library::CellId;
use mls_server::{NotOpen, Server};
use mls_session::{Command, Reply};
use std::alloc::{AllocError, Global};

/// The most calls of a row.
const MOST: usize = 16;

/// A call that takes no memory, of session a.
#[derive(Clone, Copy)]
pub enum FrugalCall {
    Box(i32, i32, i32, i32),
    Paint(u8),
    Erase(u8),
    /// Dumps the cell.
    Dump,
    /// Places the cell so far to the right.
    GetCell(i32),
    What,
    Save,
    Check,
    Count,
    /// Finishes the check that was made before, and keeps what it found.
    FinishRef,
    Finish,
    Close,
}

/// What such a call returns.
#[derive(Clone, Copy, Default)]
pub enum FrugalAnswer {
    Replied(Result<Reply, NotOpen>),
    Finished(Result<Outcome, NotOpen>),
    Closed(Result<(), NotOpen>),
    /// No check was made before.
    #[default]
    NoFinding,
}

/// A server, calls of session a in turn, and a check that was made before them.
#[derive(Drop)]
pub struct FrugalScene<'s> {
    server: &'s mut Server,
    cell: Option<CellId>,
    finding: Option<Finding>,
    calls: &'static [FrugalCall],
}

impl<'s> FrugalScene<'s> {
    /// Checks the first piece of session a, if one awaits checking.
    pub fn new(
        alloc: Global,
        server: &'s mut Server,
        calls: &'static [FrugalCall],
    ) -> Result<FrugalScene<'s>> {
        let cell = server.cell(CELL_NAME);
        let finding = first_finding(alloc, server)?;
        Ok(FrugalScene {
            server,
            cell,
            finding,
            calls,
        })
    }

    /// Makes one of the calls.
    fn make(&mut self, alloc: Global, call: FrugalCall) -> FrugalAnswer {
        let asked = match call {
            FrugalCall::Box(left, bottom, right, top) => Command::Box {
                left,
                bottom,
                right,
                top,
            },
            FrugalCall::Paint(kind) => Command::Paint(Some(Kind::new(kind))),
            FrugalCall::Erase(kind) => Command::Erase(single(kind)),
            FrugalCall::Dump => Command::Dump {
                cell: self.cell,
                dx: 0,
                dy: 0,
            },
            FrugalCall::GetCell(dx) => Command::GetCell {
                cell: self.cell,
                dx,
                dy: 0,
            },
            FrugalCall::What => Command::What,
            FrugalCall::Save => Command::Save,
            FrugalCall::Check => Command::Check,
            FrugalCall::Count => Command::Count,
            FrugalCall::FinishRef => return self.finish_ref(),
            FrugalCall::Finish => return self.finish(),
            FrugalCall::Close => return self.close(),
        };
        self.command(alloc, asked)
    }

    /// Carries out a command.
    fn command(&mut self, alloc: Global, asked: Command) -> FrugalAnswer {
        FrugalAnswer::Replied(command(alloc, self.server, id_a(), asked))
    }

    /// Closes the session.
    fn close(&mut self) -> FrugalAnswer {
        FrugalAnswer::Closed(close(self.server, id_a()))
    }

    /// Finishes the check, and keeps what it found.
    fn finish_ref(&mut self) -> FrugalAnswer {
        match &self.finding {
            Some(finding) => FrugalAnswer::Finished(finish_ref(self.server, id_a(), finding)),
            None => FrugalAnswer::NoFinding,
        }
    }

    /// Finishes the check.
    fn finish(&mut self) -> FrugalAnswer {
        match self.finding.take() {
            Some(finding) => FrugalAnswer::Finished(finish(self.server, id_a(), finding)),
            None => FrugalAnswer::NoFinding,
        }
    }
}

/// Checks the first piece of session a, if one awaits checking.
fn first_finding(alloc: Global, server: &mut Server) -> Result<Option<Finding>, AllocError> {
    match Ready::grab(alloc, server) {
        Some(ready) => Ok(Some(ready.check(alloc)?)),
        None => Ok(None),
    }
}

/// Returns the set of the type of this number alone, if it is that of a type.
fn single(kind: u8) -> Option<KindSet> {
    (kind < 64).then(|| KindSet::single(Kind::new(kind)))
}

impl<R: Print> Scene<R> for FrugalScene<'_> {
    type Answer = ArrayVec<FrugalAnswer, MOST>;

    fn call(&mut self, _rt: &R, alloc: Global, _turn: u8) -> ArrayVec<FrugalAnswer, MOST> {
        let mut answers = ArrayVec::new();
        for call in self.calls {
            let _ = answers.try_push(self.make(alloc, *call));
        }
        answers
    }

    fn print(&mut self, rt: &R, alloc: Global, answer: ArrayVec<FrugalAnswer, MOST>) -> Result<()> {
        for made in &answer {
            print_made(rt, alloc, self.server, *made)?;
        }
        Ok(())
    }

    fn show(&mut self, rt: &R, alloc: Global) -> Result<()> {
        show_server(rt, alloc, self.server)
    }
}

/// Prints what a call has returned.
fn print_made<R: Print>(rt: &R, alloc: Global, server: &Server, made: FrugalAnswer) -> Result<()> {
    match made {
        FrugalAnswer::Replied(Ok(reply)) => { print_reply(rt, alloc, server, b'a', Ok(reply), b"") }
        FrugalAnswer::Finished(Ok(outcome)) => Ok(println!(rt; "a finish {outcome:?}")?),
        FrugalAnswer::Closed(Ok(())) => Ok(println!(rt; "a closed")?),
        FrugalAnswer::Replied(Err(_))
        | FrugalAnswer::Finished(Err(_))
        | FrugalAnswer::Closed(Err(_)) => Ok(println!(rt; "not open")?),
        FrugalAnswer::NoFinding => Ok(println!(rt; "no finding")?),
    }
}
