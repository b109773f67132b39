//! Requests that are served at a seat.
ghost use Rattle.std.specs.Prelude.{◌≡◌, ℕ, List};
ghost use Rattle.mls_live.specs.Lists.{list_of};
ghost use Rattle.mls_wire.specs.Pushes.{Appends};
ghost use Rattle.mls_seat_lines.specs.Requests.{ServesCommand, ServesRequest, ServesLook, ServesAudit};
ghost use Rattle.mls_seat_lines.specs.Requests as spec;

use crate::Request;
use mls_live::{Naming, Seat};
use mls_wire::{
    Answer, Command, Look, Name, Names, Response, push_differs, push_looked, push_response,
    push_saved,
};
use std::alloc::{AllocError, Global};
use std::sync::Wait;

/// What replies to requests are worded with: memory, and what types and rules are called.
#[derive(Drop)]
pub struct Wording<'a, B> {
    pub alloc: Global,
    pub names: &'a B,
}

/// Serves a request at a seat: does what it asks for, and appends the reply text.
///
/// # Errors
///
/// Out of memory, where the list had no room for the whole text. What was asked for was done all the same.
pub fn serve_request<N: Naming, B: Names, R: Wait>(
    rt: &R,
    wording: &Wording<'_, B>,
    name: &Name,
    seat: &mut Seat<'_, N>,
    request: &Request,
    out: &mut Vec<u8>,
) -> Result<(), AllocError>
    ensures { (text : List ℕ) × ServesRequest N.terms (B.book wording.now.names.now) name.now
        (list_of seat.old) request.now text (list_of seat.new)
        × Appends result out.old out.new text }
{
    match *request {
        Request::Run(command) => run(rt, wording, name, seat, command, out),
        Request::Look(asked) => look(rt, wording, name, seat, asked, out),
        Request::Audit => audit(rt, wording, name, seat, out),
    }
}

/// Carries out a command at a seat, and appends the reply text.
fn run<N: Naming, B: Names, R: Wait>(
    rt: &R,
    wording: &Wording<'_, B>,
    name: &Name,
    seat: &mut Seat<'_, N>,
    command: Command,
    out: &mut Vec<u8>,
) -> Result<(), AllocError>
    ensures { (text : List ℕ) × ServesCommand N.terms (B.book wording.now.names.now) name.now
        (list_of seat.old) command text (list_of seat.new)
        × Appends result out.old out.new text }
{
    if is_save(&command) {
        return save(rt, wording, name, seat, out);
    }
    let result = seat.command(rt, wording.alloc, command);
    let response = Response::Answered(*name, Answer::Commanded(result));
    push_response(wording.names, 0, &response, out)
}

/// Returns whether a command is [`Command::Save`].
fn is_save(command: &Command) -> bool
    ensures { result ≡ spec.is_save command.now }
{
    matches!(command, Command::Save)
}

/// Saves the own paint at a seat, and appends the reply text and what was saved.
fn save<N: Naming, B: Names, R: Wait>(
    rt: &R,
    wording: &Wording<'_, B>,
    name: &Name,
    seat: &mut Seat<'_, N>,
    out: &mut Vec<u8>,
) -> Result<(), AllocError>
    ensures { (text : List ℕ) × ServesCommand N.terms (B.book wording.now.names.now) name.now
        (list_of seat.old) Command.Save text (list_of seat.new)
        × Appends result out.old out.new text }
{
    let mut saved = Vec::new(wording.alloc);
    let result = seat.save(rt, &mut saved);
    push_saved(wording.names, name, result, &saved, out)
}

/// Looks at the session of a seat, and appends the reply text and what comes with it.
fn look<N: Naming, B: Names, R: Wait>(
    rt: &R,
    wording: &Wording<'_, B>,
    name: &Name,
    seat: &Seat<'_, N>,
    look: Look,
    out: &mut Vec<u8>,
) -> Result<(), AllocError>
    ensures { (text : List ℕ) × ServesLook N.terms (B.book wording.now.names.now) name.now look text
        × Appends result out.old out.new text }
{
    let mut shown = Vec::new(wording.alloc);
    let result = seat.look(rt, wording.alloc, look, &mut shown);
    push_looked(wording.names, name, &result, &shown, out)
}

/// Audits a seat, and appends the reply text.
fn audit<N: Naming, B: Names, R: Wait>(
    rt: &R,
    wording: &Wording<'_, B>,
    name: &Name,
    seat: &Seat<'_, N>,
    out: &mut Vec<u8>,
) -> Result<(), AllocError>
    ensures { (text : List ℕ) × ServesAudit N.terms (B.book wording.now.names.now) name.now
        (list_of seat.now) text
        × Appends result out.old out.new text }
{
    match seat.audit(rt) {
        Ok(audited) => {
            let response = Response::Audited(*name, audited.entries);
            push_response(wording.names, 0, &response, out)
        }
        Err(_) => push_differs(name, out),
    }
}
