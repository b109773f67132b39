//! A check of a session's first piece.
use crate::ready::Ready;
use crate::scene::Scene;
use crate::shown::show_server;
use anyhow::Result;
use mls_checker::Finding;
use mls_geom::Rect;
use mls_server::Server;
use std::alloc::{AllocError, Global};

/// What a check found: its piece, and how many of its squares are marked.
#[derive(Clone, Copy)]
pub struct Found {
    piece: Rect,
    marks: u64,
}

/// A server, and a job of it that is checked first.
#[derive(Drop)]
pub struct CheckScene<'s> {
    server: &'s mut Server,
    first: Option<Ready>,
}

impl<'s> CheckScene<'s> {
    /// Grabs a job of session a.
    pub fn new(alloc: Global, server: &'s mut Server) -> CheckScene<'s> {
        let first = Ready::grab(alloc, server);
        CheckScene { server, first }
    }
}

impl<R: Print> Scene<R> for CheckScene<'_> {
    /// `None` where there is no job.
    type Answer = Option<Result<Found, AllocError>>;

    fn call(&mut self, _rt: &R, alloc: Global, _turn: u8) -> Option<Result<Found, AllocError>> {
        match self.first.take() {
            Some(ready) => Some(check(alloc, ready)),
            // The snapshot is read anew.
            None => grab_and_check(alloc, self.server),
        }
    }

    fn print(
        &mut self,
        rt: &R,
        _alloc: Global,
        answer: Option<Result<Found, AllocError>>,
    ) -> Result<()> {
        match answer {
            Some(Ok(found)) => print_found(rt, found),
            Some(Err(_)) => Ok(println!(rt; "memory")?),
            None => Ok(println!(rt; "no job")?),
        }
    }

    fn show(&mut self, rt: &R, alloc: Global) -> Result<()> {
        show_server(rt, alloc, self.server)
    }
}

/// Grabs a job of session a, and checks it.
fn grab_and_check(alloc: Global, server: &mut Server) -> Option<Result<Found, AllocError>> {
    let ready = Ready::grab(alloc, server)?;
    Some(check(alloc, ready))
}

/// Checks a job.
fn check(alloc: Global, ready: Ready) -> Result<Found, AllocError> {
    match ready.check(alloc) {
        Ok(finding) => Ok(sum_up(&finding)),
        Err(refused) => Err(refused),
    }
}

/// Returns the piece of a finding, and how many of its squares are marked.
fn sum_up(finding: &Finding) -> Found {
    let mut marks: u64 = 0;
    for area in finding.marks().areas() {
        marks = marks.saturating_add(area.size());
    }
    Found {
        piece: finding.piece(),
        marks,
    }
}

/// Prints what a check found.
fn print_found<R: Print>(rt: &R, found: Found) -> Result<()> {
    let Found { piece, marks } = found;
    let (left, bottom) = (piece.left(), piece.bottom());
    let (right, top) = (piece.right(), piece.top());
    println!(rt; "piece {left} {bottom} {right} {top} marks {marks}")?;
    Ok(())
}
