//! Which lines of a script have their replies at once, and which make a request that is handed to a session.
ghost use Rattle.std.specs.Prelude.{◌≡◌, ◌+◌, ◌<◌, [], IfOk, Ok, OnOk, length, slice_index_or, vec_len};
ghost use Rattle.mls_seat_lines.specs.mls_live.Lists.{list_of};
ghost use Rattle.mls_seat_lines.specs.SymbolTables.{book_in};
ghost use Rattle.mls_crew.specs.Sorting.{SortsOpening, Sorts, SortsLine, followed_by, at_once, faulty, handed_to, number_of_session};
ghost use Rattle.mls_seat_lines.specs.mls_wire.Replies.{response_text};

use crate::Handed;
use crossbeam_channel::Sender;
use mls_seat_lines::{
    Answer, Line, LineFault, Live, Name, Naming, OpenFault, Request, Response, Seat, SessionId,
    SymbolTable, push_response,
};
use std::alloc::{AllocError, Global};
use std::marker::Model;
use std::sync::Wait;

/// A seat at which nothing was asked for yet.
#[derive(Drop)]
pub struct Fresh<'l, N: Naming> {
    pub seat: Seat<'l, N>,
    pub ghost silent: { length (list_of seat) ≡ 0 },
}

/// What opens sessions, and replies to lines that make no request.
#[derive(Drop)]
pub struct Opener<'l, N: Naming> {
    pub alloc: Global,
    pub live: &'l Live<N>,
    pub symbols: &'l SymbolTable,
    pub notices: Sender<SessionId, Global>,
}

/// The lines of a script, sorted: the text of those that have replies at once, the requests that are handed to a
/// session, and the names of the sessions that were opened.
#[derive(Drop)]
pub struct Sorting {
    head: Vec<u8>,
    handed: Vec<Handed>,
    names: Vec<Name>,
}

impl Model for Sorting {
    ghost use Rattle.mls_crew.specs.Sorting.{Sorted};

    ghost Value = { Sorted };

    ghost view = { λ s. record { head = s.head.items; handed = s.handed.items; opened = s.names.items } };
}

impl Sorting {
    /// Creates a sorting of no lines.
    fn new(alloc: Global) -> Sorting
        ensures { result ≡ record { head = []; handed = []; opened = [] } }
    {
        Sorting {
            head: Vec::new(alloc),
            handed: Vec::new(alloc),
            names: Vec::new(alloc),
        }
    }

    /// Returns the text of the lines that have their replies at once.
    pub fn into_head(self) -> Vec<u8>
        ensures { result.items ≡ self.head }
    {
        self.head
    }

    /// Returns the requests that are handed to sessions.
    pub fn handed(&self) -> &[Handed]
        ensures { result.now ≡ self.now.handed }
    {
        self.handed.as_slice()
    }

    /// Returns the name of an opened session.
    pub fn name(&self, session: usize) -> Name
        requires { session < length self.now.opened }
        ensures { result ≡ slice_index_or self.now.opened session [] }
    {
        self.names[session]
    }

    /// Returns the number of the session of this name.
    fn session(&self, name: &Name) -> Option<usize>
        ensures { result ≡ number_of_session self.now.opened name.now }
    {
        self.names.iter().position(|other| name == other)
    }

    /// Sorts line `n`.
    fn sort_line<'l, N: Naming, R: Wait>(
        &mut self,
        rt: &R,
        opener: &Opener<'l, N>,
        n: u128,
        read: &Result<Line, LineFault>,
        seats: &mut Vec<Fresh<'l, N>>,
    ) -> Result<(), AllocError>
        requires paired { length self.old.opened ≡ vec_len seats.old }
        ensures sorts { OnOk result ((sorted : _) × SortsLine
            (book_in opener.now.symbols.now) n self.old.opened read.now sorted
            × (self.new ≡ followed_by self.old sorted)) }
        ensures paired { OnOk result (length self.new.opened ≡ vec_len seats.new) }
    {
        match read {
            Err(fault) => self.refuse(opener, n, *fault),
            Ok(line) => self.sort_read(rt, opener, n, line, seats),
        }
    }

    /// Sorts line `n`, which could be read.
    fn sort_read<'l, N: Naming, R: Wait>(
        &mut self,
        rt: &R,
        opener: &Opener<'l, N>,
        n: u128,
        line: &Line,
        seats: &mut Vec<Fresh<'l, N>>,
    ) -> Result<(), AllocError>
        requires paired { length self.old.opened ≡ vec_len seats.old }
        ensures sorts { OnOk result ((sorted : _) × SortsLine (book_in opener.now.symbols.now) n self.old.opened
            (Ok line.now) sorted × (self.new ≡ followed_by self.old sorted)) }
        ensures paired { OnOk result (length self.new.opened ≡ vec_len seats.new) }
    {
        match line {
            Line::Silent => Ok(()),
            Line::Open(name) => self.open(rt, opener, n, name, seats),
            Line::Close(_, _) => self.refuse(opener, n, LineFault::UnknownCommand),
            Line::Step(_, _) => self.refuse(opener, n, LineFault::UnknownCommand),
            Line::Steps(_, _, _) => self.refuse(opener, n, LineFault::UnknownCommand),
            Line::Audit(name, _) => self.hand(opener, n, name, Request::Audit),
            Line::Look(name, _, look) => self.hand(opener, n, name, Request::Look(*look)),
            Line::Run(name, _, command) => self.hand(opener, n, name, Request::Run(*command)),
        }
    }

    /// Replies to line `n` at once.
    fn answer<N: Naming>(
        &mut self,
        opener: &Opener<'_, N>,
        n: u128,
        response: &Response,
    ) -> Result<(), AllocError>
        ensures { OnOk result (self.new ≡ followed_by self.old
            (at_once self.old.opened (response_text (book_in opener.now.symbols.now) n response.now))) }
    {
        push_response(opener.symbols, n, response, &mut self.head)
    }

    /// Replies to line `n` with its fault.
    fn refuse<N: Naming>(
        &mut self,
        opener: &Opener<'_, N>,
        n: u128,
        fault: LineFault,
    ) -> Result<(), AllocError>
        ensures { OnOk result (self.new ≡ followed_by self.old
            (faulty (book_in opener.now.symbols.now) n fault self.old.opened)) }
    {
        self.answer(opener, n, &Response::Fault(fault))
    }

    /// Hands the request of line `n` to the session of this name.
    fn hand<N: Naming>(
        &mut self,
        opener: &Opener<'_, N>,
        n: u128,
        name: &Name,
        request: Request,
    ) -> Result<(), AllocError>
        ensures { OnOk result (self.new ≡ followed_by self.old
            (handed_to (book_in opener.now.symbols.now) n self.old.opened
            (number_of_session self.old.opened name.now) request)) }
    {
        let Some(session) = self.session(name) else {
            return self.refuse(opener, n, LineFault::NotOpen);
        };
        self.handed.push(Handed { session, request })?;
        Ok(())
    }

    /// Opens a session, or replies to line `n` why it can't be opened.
    fn open<'l, N: Naming, R: Wait>(
        &mut self,
        rt: &R,
        opener: &Opener<'l, N>,
        n: u128,
        name: &Name,
        seats: &mut Vec<Fresh<'l, N>>,
    ) -> Result<(), AllocError>
        requires paired { length self.old.opened ≡ vec_len seats.old }
        ensures opens { OnOk result ((sorted : _) × SortsOpening
            (book_in opener.now.symbols.now) n self.old.opened name.now sorted
            × (self.new ≡ followed_by self.old sorted)) }
        ensures paired { OnOk result (length self.new.opened ≡ vec_len seats.new) }
    {
        if self.session(name).is_some() {
            return self.answer_opening(opener, n, name, OpenFault::OpenAlready);
        }
        match opener.live.seat(rt, opener.alloc, *name) {
            Ok(seat) => {
                seats.push(notifying(opener, seat))?;
                self.names.push(*name)?;
                Ok(())
            }
            Err(fault) => self.answer_opening(opener, n, name, fault),
        }
    }

    /// Replies to line `n` why the session can't be opened.
    fn answer_opening<N: Naming>(
        &mut self,
        opener: &Opener<'_, N>,
        n: u128,
        name: &Name,
        fault: OpenFault,
    ) -> Result<(), AllocError>
        ensures { OnOk result (self.new ≡ followed_by self.old
            (at_once self.old.opened (response_text (book_in opener.now.symbols.now) n
            (Response.Answered name.now (Answer.Opened (Err fault)))))) }
    {
        self.answer(
            opener,
            n,
            &Response::Answered(*name, Answer::Opened(Err(fault))),
        )
    }
}

/// Returns a seat with a sender of its own, or with none where it is refused.
fn notifying<'l, N: Naming>(opener: &Opener<'_, N>, mut seat: Seat<'l, N>) -> Fresh<'l, N>
    requires { list_of seat ≡ [] }
{
    if let Ok(notices) = opener.notices.clone() {
        seat.notify(notices);
    }
    Fresh { seat }
}

/// Sorts the lines of a script, and opens its sessions.
pub fn sort<'l, N: Naming, R: Wait>(
    rt: &R,
    opener: &Opener<'l, N>,
    script: &[Result<Line, LineFault>],
    seats: &mut Vec<Fresh<'l, N>>,
) -> Result<Sorting, AllocError>
    requires { vec_len seats.old ≡ 0 }
    ensures sorts { IfOk result (λ sorted. Sorts (book_in opener.now.symbols.now) 1 [] script.now sorted) }
    ensures paired { IfOk result (λ sorted. length sorted.opened ≡ vec_len seats.new) }
{
    let mut sorting = Sorting::new(opener.alloc);
    let mut n: u128 = 1;
    for read in script {
        sorting.sort_line(rt, opener, n, read, seats)?;
        n += 1;
    }
    Ok(sorting)
}
