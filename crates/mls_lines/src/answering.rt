//! What a line does, and its reply.
ghost use Rattle.std.specs.Prelude.{◌≡◌, ℕ, Bool, List, [], None, Ok, true, is_ok, IfOk};
ghost use Rattle.mls_seat_lines.specs.mls_live.Lists.{list_of};
ghost use Rattle.mls_seat_lines.specs.mls_server.LegalLists.{IsLegalList};
ghost use Rattle.mls_seat_lines.specs.mls_wire.Pushes.{Appends};
ghost use Rattle.mls_seat_lines.specs.mls_wire.Replies.{answer_text, response_text};
ghost use Rattle.mls_seat_lines.specs.mls_wire.ScriptLines.{bytes_of_line};
ghost use Rattle.mls_lines.specs.Answers.{AnswersLine, ClosesAt, OpensAt, ServesAt, fault_alone, held_by, name_held};
ghost use Rattle.mls_seat_lines.specs.SymbolTables.{book_in};
ghost use Rattle.mls_lines.specs.Beside.{says_beside};

use crate::hall::{Hall, Scripted};
use crate::seating::{Sitting, parse};
use crossbeam_channel::Sender;
use mls_seat_lines::{
    Answer, Command, Line, LineFault, Live, Name, Naming, OpenFault, Request, Response, ScriptLine,
    Seat, SessionId, Wording, push_response, serve_request,
};
use std::alloc::{AllocError, Global};
use std::sync::Wait;

/// How many pieces a seat checks off the lock before it catches up. What is left then is checked in one hold of it.
const MOST_TURNS: u64 = 1 << 20;

/// What a name's thread has for its lines.
#[derive(Drop)]
pub struct Clerk<'l, N: Scripted> {
    pub hall: &'l Hall,
    pub live: &'l Live<N>,
    /// Where notices for the workers go, if there are any.
    pub notices: Option<Sender<SessionId, Global>>,
    pub ghost called: { hall.now.symbols ≡ N.symbols },
}

/// A line, and its number in the script.
#[derive(Clone, Copy)]
pub struct Numbered<'b> {
    pub n: u128,
    pub line: ScriptLine<'b>,
}

impl<'b> Numbered<'b> {
    /// Returns a line with its number.
    pub fn new(n: u128, line: ScriptLine<'b>) -> Numbered<'b>
        ensures { (result.n ≡ n) × (bytes_of_line result.line ≡ bytes_of_line line.entry) }
    {
        Numbered { n, line }
    }
}

impl<'l, N: Scripted> Clerk<'l, N> {
    /// Does what a line asks for, and appends its reply text. Returns false where a session was closed whose list isn't
    /// that of its journal.
    ///
    /// # Errors
    ///
    /// Out of memory, where the list had no room for the whole text. What the line asks for was done all the same.
    pub fn answer<R: Wait>(
        &self,
        rt: &R,
        sitting: &mut Option<Sitting<'l, N>>,
        line: &Numbered<'_>,
        out: &mut Vec<u8>,
    ) -> Result<bool, AllocError>
        requires parts { N.parts ≡ 65 }
        ensures { (text : List ℕ) × (audited : Bool) × AnswersLine N.terms (book_in N.symbols) line.now.n
            (says_beside (book_in N.symbols) (name_held (held_by sitting.old)) (bytes_of_line line.now.line))
            (held_by sitting.old) text audited (held_by sitting.new)
            × IfOk result (λ known. known ≡ audited) × Appends result out.old out.new text }
    {
        match parsed::<N>(self.hall, name_of(sitting), line) {
            Err(fault) => done(push_fault::<N>(self.hall, line.n, fault, out), true),
            Ok(asked) => self.carry_out(rt, sitting, line.n, asked, out),
        }
    }

    /// Does what line `n` asks for, as [`Clerk::answer`] does.
    fn carry_out<R: Wait>(
        &self,
        rt: &R,
        sitting: &mut Option<Sitting<'l, N>>,
        n: u128,
        asked: Line,
        out: &mut Vec<u8>,
    ) -> Result<bool, AllocError>
        requires parts { N.parts ≡ 65 }
        ensures { (text : List ℕ) × (audited : Bool) × AnswersLine N.terms (book_in N.symbols) n (Ok asked)
            (held_by sitting.old) text audited (held_by sitting.new)
            × IfOk result (λ known. known ≡ audited) × Appends result out.old out.new text }
    {
        match asked {
            Line::Silent => Ok(true),
            Line::Open(name) => done(self.open(rt, sitting, name, out), true),
            Line::Close(name, _) => self.close(rt, sitting, n, name, out),
            Line::Step(_, _) => done(self.refuse_steps(n, out), true),
            Line::Steps(_, _, _) => done(self.refuse_steps(n, out), true),
            Line::Audit(_, _) => done(self.serve(rt, sitting, n, Request::Audit, out), true),
            Line::Look(_, _, look) => {
                done(self.serve(rt, sitting, n, Request::Look(look), out), true)
            }
            Line::Run(_, _, command) => {
                done(self.serve(rt, sitting, n, Request::Run(command), out), true)
            }
        }
    }

    /// Serves a request at the seat.
    fn serve<R: Wait>(
        &self,
        rt: &R,
        sitting: &mut Option<Sitting<'l, N>>,
        n: u128,
        request: Request,
        out: &mut Vec<u8>,
    ) -> Result<(), AllocError>
        ensures { (text : List ℕ) × ServesAt N.terms (book_in N.symbols) n request
            (held_by sitting.old) text (held_by sitting.new)
            × Appends result out.old out.new text }
    {
        let Some(sitting) = sitting else {
            return push_fault::<N>(self.hall, n, LineFault::NotOpen, out);
        };
        if is_catch_up(&request) {
            sitting.seat.work_off(rt, self.hall.alloc, MOST_TURNS);
        }
        let name = sitting.name;
        let wording = Wording {
            alloc: self.hall.alloc,
            names: &self.hall.symbols,
        };
        serve_request(rt, &wording, &name, &mut sitting.seat, &request, out)
    }

    /// Opens a session of this name, or replies why it can't be opened.
    fn open<R: Wait>(
        &self,
        rt: &R,
        sitting: &mut Option<Sitting<'l, N>>,
        name: Name,
        out: &mut Vec<u8>,
    ) -> Result<(), AllocError>
        ensures { (text : List ℕ) × OpensAt (book_in N.symbols) name
            (held_by sitting.old) text (held_by sitting.new)
            × Appends result out.old out.new text }
    {
        if let Some(Sitting { name: other, .. }) = sitting {
            let fault = if *other == name {
                OpenFault::OpenAlready
            } else {
                OpenFault::SessionsFull
            };
            return push_answer::<N>(self.hall, name, Answer::Opened(Err(fault)), out);
        }
        match self.seat(rt, name) {
            Ok(seat) => {
                let id = seat.id();
                *sitting = Some(Sitting { name, seat });
                push_answer::<N>(self.hall, name, Answer::Opened(Ok(id)), out)
            }
            Err(fault) => push_answer::<N>(self.hall, name, Answer::Opened(Err(fault)), out),
        }
    }

    /// Opens a session of this name, whose seat sends notices to the workers.
    fn seat<R: Wait>(&self, rt: &R, name: Name) -> Result<Seat<'l, N>, OpenFault>
        ensures { IfOk result (λ seat. list_of seat ≡ []) }
    {
        let mut seat = self.live.seat(rt, self.hall.alloc, name)?;
        if let Some(notices) = &self.notices
            && let Ok(notices) = notices.clone()
        {
            seat.notify(notices);
        }
        Ok(seat)
    }

    /// Closes the session, and returns whether its list was audited.
    fn close<R: Wait>(
        &self,
        rt: &R,
        sitting: &mut Option<Sitting<'l, N>>,
        n: u128,
        name: Name,
        out: &mut Vec<u8>,
    ) -> Result<bool, AllocError>
        requires parts { N.parts ≡ 65 }
        ensures { (text : List ℕ) × (audited : Bool) × ClosesAt N.terms (book_in N.symbols) n name
            (held_by sitting.old) text audited (held_by sitting.new)
            × IfOk result (λ known. known ≡ audited) × Appends result out.old out.new text }
    {
        match sitting.take() {
            Some(sitting) => self.leave(rt, sitting, name, out),
            None => done(push_fault::<N>(self.hall, n, LineFault::NotOpen, out), true),
        }
    }

    /// Closes an open session, and returns whether its list was audited.
    fn leave<R: Wait>(
        &self,
        rt: &R,
        sitting: Sitting<'l, N>,
        name: Name,
        out: &mut Vec<u8>,
    ) -> Result<bool, AllocError>
        requires parts { N.parts ≡ 65 }
        ensures { (audited : Bool) × (audited ≡ true → IsLegalList N.terms (list_of sitting.entry.seat))
            × IfOk result (λ known. known ≡ audited)
            × Appends result out.old out.new (answer_text (book_in N.symbols) name (Answer.Closed (Ok tt))) }
    {
        let Sitting { seat, .. } = sitting;
        let audited = seat.audit(rt).is_ok();
        let _ = self.live.leave(rt, seat);
        done(
            push_answer::<N>(self.hall, name, Answer::Closed(Ok(())), out),
            audited,
        )
    }

    /// Appends that line `n` is no command, since the workers take check steps.
    fn refuse_steps(&self, n: u128, out: &mut Vec<u8>) -> Result<(), AllocError>
        ensures { Appends result out.old out.new
            (response_text (book_in N.symbols) n (Response.Fault LineFault.UnknownCommand)) }
    {
        push_fault::<N>(self.hall, n, LineFault::UnknownCommand, out)
    }
}

/// Returns whether a request is that all areas be checked.
fn is_catch_up(request: &Request) -> bool {
    matches!(request, Request::Run(Command::CatchUp))
}

/// Returns whether a list was audited, where the line has its reply.
fn done(replied: Result<(), AllocError>, audited: bool) -> Result<bool, AllocError>
    ensures same { is_ok result ≡ is_ok replied }
    ensures known { IfOk result (λ known. known ≡ audited) }
{
    replied?;
    Ok(audited)
}

/// Returns what a line says where this session is open, or none, or its first fault.
fn parsed<N: Scripted>(
    hall: &Hall,
    held: Option<Name>,
    line: &Numbered<'_>,
) -> Result<Line, LineFault>
    requires { hall.now.symbols ≡ N.symbols }
    ensures { result ≡ says_beside (book_in N.symbols) held (bytes_of_line line.now.line) }
{
    parse(&hall.symbols, held, line.line)
}

/// Returns the name of the session that is open.
fn name_of<N: Naming>(sitting: &Option<Sitting<'_, N>>) -> Option<Name>
    ensures { result ≡ name_held (held_by sitting.now) }
{
    match sitting {
        Some(Sitting { name, .. }) => Some(*name),
        None => None,
    }
}

/// Appends the reply text of a line of which no thread has the name: then no session of its name is open.
///
/// # Errors
///
/// Out of memory, where the list had no room for the whole text.
pub fn push_alone<N: Scripted>(
    hall: &Hall,
    line: &Numbered<'_>,
    out: &mut Vec<u8>,
) -> Result<(), AllocError>
    requires { hall.now.symbols ≡ N.symbols }
    ensures { (text : List ℕ) × AnswersLine N.terms (book_in N.symbols) line.now.n
        (says_beside (book_in N.symbols) None (bytes_of_line line.now.line)) None text true None
        × Appends result out.old out.new text }
{
    match parsed::<N>(hall, None, line) {
        Err(fault) => push_fault::<N>(hall, line.n, fault, out),
        Ok(asked) => push_asked_alone::<N>(hall, line.n, &asked, out),
    }
}

/// Appends the reply text of line `n`, of which no thread has the name.
fn push_asked_alone<N: Scripted>(
    hall: &Hall,
    n: u128,
    asked: &Line,
    out: &mut Vec<u8>,
) -> Result<(), AllocError>
    requires { hall.now.symbols ≡ N.symbols }
    ensures { (text : List ℕ) × AnswersLine N.terms (book_in N.symbols) n (Ok asked.now) None text true None
        × Appends result out.old out.new text }
{
    match asked {
        Line::Silent => Ok(()),
        Line::Open(name) => {
            let full = Answer::Opened(Err(OpenFault::SessionsFull));
            push_answer::<N>(hall, *name, full, out)
        }
        asked => push_fault::<N>(hall, n, fault_alone(asked), out),
    }
}

/// Returns the fault of a line of an open session, where no thread has its name.
fn fault_alone(asked: &Line) -> LineFault
    ensures { result ≡ fault_alone asked.now }
{
    match asked {
        // The workers take check steps.
        Line::Step(_, _) | Line::Steps(_, _, _) => LineFault::UnknownCommand,
        Line::Silent
        | Line::Open(_)
        | Line::Close(_, _)
        | Line::Audit(_, _)
        | Line::Look(_, _, _)
        | Line::Run(_, _, _) => LineFault::NotOpen,
    }
}

/// Appends the reply to a line of this name.
#[tactic(auto, unfolding(crate::specs::Answers::response_text))]
fn push_answer<N: Scripted>(
    hall: &Hall,
    name: Name,
    answer: Answer,
    out: &mut Vec<u8>,
) -> Result<(), AllocError>
    requires { hall.now.symbols ≡ N.symbols }
    ensures { Appends result out.old out.new (answer_text (book_in N.symbols) name answer) }
{
    push_response(&hall.symbols, 0, &Response::Answered(name, answer), out)
}

/// Appends that line `n` has this fault.
fn push_fault<N: Scripted>(
    hall: &Hall,
    n: u128,
    fault: LineFault,
    out: &mut Vec<u8>,
) -> Result<(), AllocError>
    requires { hall.now.symbols ≡ N.symbols }
    ensures { Appends result out.old out.new (response_text (book_in N.symbols) n (Response.Fault fault)) }
{
    push_response(&hall.symbols, n, &Response::Fault(fault), out)
}
