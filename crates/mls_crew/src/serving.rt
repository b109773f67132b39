//! Requests of a session of a script, at its seat.
ghost use Rattle.std.specs.Prelude.{◌≡◌, ◌++◌, ℕ, List, [], IfOk, OnOk, length};
ghost use Rattle.mls_seat_lines.specs.mls_live.Lists.{list_of};
ghost use Rattle.mls_seat_lines.specs.SymbolTables.{book_in};
ghost use Rattle.mls_crew.specs.Groups.{ServesRequests, GivesGroup, requests_handed};

use crate::sorting::{Fresh, Sorting};
use mls_seat_lines::{
    Answer, Name, Naming, Response, Seat, SymbolTable, Wording, push_response, serve_request,
};
use std::alloc::{AllocError, Global};
use std::marker::Model;
use std::sync::Wait;

/// The text of a session, and whether its seat's list was audited at the end.
#[derive(Drop)]
pub struct GroupText {
    text: Vec<u8>,
    audited: bool,
}

impl Model for GroupText {
    ghost use Rattle.mls_crew.specs.Groups.{GroupText};

    ghost Value = { GroupText };

    ghost view = { λ group. record { text = group.text.items; audited = group.audited } };
}

impl GroupText {
    /// Returns the text.
    pub fn text(&self) -> &[u8]
        ensures { result.now ≡ self.now.text }
    {
        self.text.as_slice()
    }

    /// Returns whether the list was audited.
    pub fn audited(&self) -> bool
        ensures { result ≡ self.now.audited }
    {
        self.audited
    }
}

/// A session's seat once its requests were served there, and its text.
#[derive(Drop)]
pub struct ServedSeat<'l, N: Naming> {
    pub seat: Seat<'l, N>,
    pub group: Result<GroupText, AllocError>,
}

/// The requests of one session of a script.
#[derive(Clone, Copy)]
pub struct Part<'s> {
    pub alloc: Global,
    pub symbols: &'s SymbolTable,
    pub sorting: &'s Sorting,
    pub session: usize,
}

impl<'s> Part<'s> {
    /// Returns the part of another session.
    pub fn of(self, session: usize) -> Part<'s>
        ensures { result ≡ record self.entry { session = session } }
    {
        Part { session, ..self }
    }
}

/// Serves the requests of a session at its seat, one after another, and audits it.
pub fn serve_session<'l, N: Naming, R: Wait>(
    rt: &R,
    part: Part<'_>,
    name: Name,
    fresh: Fresh<'l, N>,
) -> ServedSeat<'l, N>
    ensures { IfOk result.group (GivesGroup N.terms (book_in part.entry.symbols.now) name
        (requests_handed part.entry.session part.entry.sorting.now.handed)) }
{
    let Fresh { mut seat } = fresh;
    let group = serve_group(rt, &part, &name, &mut seat);
    ServedSeat { seat, group }
}

/// Serves the requests of a session at its seat, and returns its text.
fn serve_group<N: Naming, R: Wait>(
    rt: &R,
    part: &Part<'_>,
    name: &Name,
    seat: &mut Seat<'_, N>,
) -> Result<GroupText, AllocError>
    requires { length (list_of seat.old) ≡ 0 }
    ensures { IfOk result (GivesGroup N.terms (book_in part.now.symbols.now) name.now
        (requests_handed part.now.session part.now.sorting.now.handed)) }
{
    let mut text = Vec::new(part.alloc);
    let opened = Response::Answered(*name, Answer::Opened(Ok(seat.id())));
    push_response(part.symbols, 0, &opened, &mut text)?;
    serve_requests(rt, part, name, seat, &mut text)?;
    let audited = seat.audit(rt).is_ok();
    Ok(GroupText { text, audited })
}

/// Serves the requests of a session at its seat, one after another, and appends their reply texts.
fn serve_requests<N: Naming, R: Wait>(
    rt: &R,
    part: &Part<'_>,
    name: &Name,
    seat: &mut Seat<'_, N>,
    out: &mut Vec<u8>,
) -> Result<(), AllocError>
    ensures { OnOk result ((text : List ℕ) × ServesRequests N.terms (book_in part.now.symbols.now) name.now
        (list_of seat.old)
        (requests_handed part.now.session part.now.sorting.now.handed) text (list_of seat.new)
        × (out.new.items ≡ out.old.items ++ text)) }
{
    let wording = Wording {
        alloc: part.alloc,
        names: part.symbols,
    };
    let lines = part.sorting.handed();
    for handed in lines {
        if handed.session == part.session {
            serve_request(rt, &wording, name, seat, &handed.request, out)?;
        }
    }
    Ok(())
}
