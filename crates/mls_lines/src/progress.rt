//! How far the lines of a name's thread have come.
ghost use Rattle.std.specs.Prelude.{◌≡◌};
ghost use Rattle.mls_lines.specs.Answers.{held_by};
ghost use Rattle.mls_seat_lines.specs.SymbolTables.{book_in};
ghost use Rattle.mls_lines.specs.Scripts.{HasAnswered};

use crate::answering::{Clerk, Numbered};
use crate::hall::{Queued, Reply, Scripted};
use crate::seating::Sitting;
use mls_seat_lines::ScriptLine;
use std::sync::Wait;

/// The session that is open at a thread's seat, and the number of the line that came last.
#[derive(Drop)]
pub struct Progress<'l, N: Scripted> {
    clerk: Clerk<'l, N>,
    sitting: Option<Sitting<'l, N>>,
    last: u128,
    ghost answered: { ∥ HasAnswered N.terms (book_in N.symbols) N.script last (held_by sitting) ∥₁ },
}

impl<'l, N: Scripted> Progress<'l, N> {
    /// Creates the progress of no line.
    pub fn new(clerk: Clerk<'l, N>) -> Self {
        Progress {
            clerk,
            sitting: None,
            last: 0,
        }
    }

    /// Returns whether a session is open.
    pub fn is_open(&self) -> bool {
        self.sitting.is_some()
    }

    /// Does what a line asks for, and returns the reply. Returns none where memory runs out for it.
    pub fn answer<R: Wait>(&mut self, rt: &R, line: &Queued<N>) -> Option<Reply<N>>
        requires { N.parts ≡ 65 }
    {
        // A queue keeps its order.
        if line.n <= self.last {
            return None;
        }
        let mut text = Vec::new(self.clerk.hall.alloc);
        let numbered = Numbered::new(line.n, ScriptLine::Text(&line.bytes));
        let replied = self
            .clerk
            .answer(rt, &mut self.sitting, &numbered, &mut text);
        self.last = line.n;
        match replied {
            Ok(audited) => Some(Reply::<N>::new(text, audited)),
            Err(_) => None,
        }
    }

    /// Closes the session that is open, if any, and returns a last reply, without text.
    pub fn end<R: Wait>(self, rt: &R) -> Option<Reply<N>>
        requires { N.parts ≡ 65 }
    {
        let Progress { clerk, sitting, .. } = self;
        let Sitting { seat, .. } = sitting?;
        let audited = seat.audit(rt).is_ok();
        let _ = clerk.live.leave(rt, seat);
        Some(Reply::<N>::new(Vec::new(clerk.hall.alloc), audited))
    }
}
