//! The text of replies.
ghost use Rattle.std.specs.Prelude.{◌≡◌, ◌+◌, ◌++◌, ◌∷◌, ◌<◌, ◌≤◌, OnErr, OnOk, [], decimal, codes, length, vec_capacity, vec_len};
ghost use Rattle.std.specs.Fmt.{signed_decimal};
ghost use Rattle.std.specs.List.{flat_map};
ghost use Rattle.std.specs.Option.{option_map};
ghost use Rattle.mls_server.specs.Faults.{open_fault_number, open_fault_text};
ghost use Rattle.mls_server.specs.mls_session.Refusals.{refusal_number, refusal_text};
ghost use Rattle.mls_wire.specs.Pushes.{Appends};
ghost use Rattle.mls_wire.specs.ReadBack.{CommandsAreLines, CommandsReadBack, NamesReadBack, StepsReadBack};
ghost use Rattle.mls_wire.specs.Replies as spec;
ghost use Rattle.mls_wire.specs.SeatTexts.{differs_text};

use crate::journal_lines::{commands_read_back, push_journal};
use crate::violation_lines::push_violations;
use crate::{Names, Response};
use itoa::{Buffer, Integer};
use mls_edgerule::RuleSet;
use mls_kinds::{Kind, KindSet};
use mls_server::{
    Answer, CellUse, Looked, Name, NotOpen, OpenFault, Refusal, Reply, Status, StepRun, Stepped,
};
use std::alloc::AllocError;

/// Whether bytes were appended: memory may run out.
pub(crate) type Pushed = Result<(), AllocError>;

/// Appends the reply text of the response to line `n`.
///
/// # Errors
///
/// Out of memory, where the list had no room for the whole text.
#[tactic(auto, unfolding(crate::specs::Replies::response_text))]
pub fn push_response<N: Names>(
    names: &N,
    n: u128,
    response: &Response,
    out: &mut Vec<u8>,
) -> Result<(), AllocError>
    ensures { Appends result out.old out.new (spec.response_text (N.book names.now) n response.now) }
{
    match response {
        Response::Silent => Ok(()),
        Response::Fault(fault) => {
            let (number, text) = fault.numbered();
            out.extend_from_slice(b"line ")?;
            push_decimal(n, out)?;
            out.extend_from_slice(b" fault ")?;
            push_numbered(number, text.as_bytes(), out)?;
            out.extend_from_slice(b"\n")
        }
        Response::Answered(name, answer) => push_answer(names, name, answer, out),
        Response::Audited(name, entries) => {
            out.extend_from_slice(name.as_bytes())?;
            out.extend_from_slice(b" audited ")?;
            push_decimal(*entries as u64, out)?;
            out.extend_from_slice(b"\n")
        }
    }
}

/// Appends the reply text to a save, and the text that was saved.
///
/// # Errors
///
/// Out of memory, where the list had no room for the whole text.
#[tactic(auto, unfolding(crate::specs::Replies::answer_text))]
pub fn push_saved<N: Names>(
    names: &N,
    name: &Name,
    saved: Result<Reply, NotOpen>,
    text: &[u8],
    out: &mut Vec<u8>,
) -> Result<(), AllocError>
    ensures { Appends result out.old out.new
        (spec.answer_text (N.book names.now) name.now (Answer.Saved saved text.now)) }
{
    match saved {
        Ok(reply) => push_replied(names, name, reply, text, out),
        Err(_) => Ok(()),
    }
}

/// Appends the reply text to a look, and the text that comes with it.
///
/// The line that is written for a command of a journal says that command, if some line of at most 1,023 bytes does.
///
/// # Errors
///
/// Out of memory, where the list had no room for the whole text.
#[tactic(auto, unfolding(crate::specs::Replies::answer_text))]
pub fn push_looked<N: Names>(
    names: &N,
    name: &Name,
    looked: &Result<Looked, NotOpen>,
    text: &[u8],
    out: &mut Vec<u8>,
) -> Result<(), AllocError>
    ensures appends { Appends result out.old out.new
        (spec.answer_text (N.book names.now) name.now (Answer.Looked looked.now text.now)) }
    ensures reads_back { NamesReadBack (N.book names.now) → CommandsReadBack (N.book names.now) }
    ensures are_lines { NamesReadBack (N.book names.now) → CommandsAreLines (N.book names.now) }
    ensures steps_back { StepsReadBack (N.book names.now) }
{
    // For its contract alone.
    commands_read_back(names);
    let Ok(looked) = looked else { return Ok(()) };
    push_words(name, b" ", out)?;
    push_look(names, name, looked, out)?;
    out.push(b'\n')?;
    out.extend_from_slice(text)
}

/// Appends that the list of the session's seat isn't that of its journal.
///
/// # Errors
///
/// Out of memory, where the list had no room for the whole text.
pub fn push_differs(name: &Name, out: &mut Vec<u8>) -> Result<(), AllocError>
    ensures { Appends result out.old out.new (differs_text name.now) }
{
    push_words(name, b" differs\n", out)
}

/// Appends the reply text of an answer. Answers that no line has are of no text.
#[tactic(auto, unfolding(crate::specs::Replies::answer_text))]
fn push_answer<N: Names>(names: &N, name: &Name, answer: &Answer, out: &mut Vec<u8>) -> Pushed
    ensures { Appends result out.old out.new (spec.answer_text (N.book names.now) name.now answer.now) }
{
    match answer {
        Answer::Opened(Ok(_)) => push_words(name, b" opened\n", out),
        Answer::Opened(Err(fault)) => push_not_opened(name, *fault, out),
        Answer::Closed(Ok(_)) => push_words(name, b" closed\n", out),
        Answer::Commanded(Ok(reply)) => push_replied(names, name, *reply, b"", out),
        Answer::Saved(Ok(reply), text) => push_replied(names, name, *reply, text.as_slice(), out),
        Answer::Looked(looked, text) => push_looked(names, name, looked, text.as_slice(), out),
        Answer::Stepped(Ok(end)) => {
            push_words(name, b" step ", out)?;
            out.extend_from_slice(stepped_text(*end).as_bytes())?;
            out.extend_from_slice(b"\n")
        }
        Answer::SteppedTimes(Ok(run)) => {
            push_words(name, b" steps ", out)?;
            push_step_run(run, out)?;
            out.extend_from_slice(b"\n")
        }
        Answer::Closed(Err(_))
        | Answer::Commanded(Err(_))
        | Answer::Saved(Err(_), _)
        | Answer::Stepped(Err(_))
        | Answer::SteppedTimes(Err(_))
        | Answer::Grabbed(_)
        | Answer::Finished(_)
        | Answer::Settled(_) => Ok(()),
    }
}

/// Appends a session's name and the bytes after it.
fn push_words(name: &Name, bytes: &[u8], out: &mut Vec<u8>) -> Pushed
    ensures { Appends result out.old out.new (name.now ++ bytes.now) }
{
    out.extend_from_slice(name.as_bytes())?;
    out.extend_from_slice(bytes)
}

/// Appends why a session of this name can't be opened.
fn push_not_opened(name: &Name, fault: OpenFault, out: &mut Vec<u8>) -> Pushed
    ensures { Appends result out.old out.new
        (name.now ++ codes " refused open " ++ spec.numbered (open_fault_number fault) (open_fault_text fault)
        ++ 10 ∷ []) }
{
    push_words(name, b" refused open ", out)?;
    push_numbered(fault.number(), fault.text().as_bytes(), out)?;
    out.extend_from_slice(b"\n")
}

/// Appends a session's name, its reply, and the text that follows it.
fn push_replied<N: Names>(
    names: &N,
    name: &Name,
    reply: Reply,
    text: &[u8],
    out: &mut Vec<u8>,
) -> Pushed
    ensures { Appends result out.old out.new
        (name.now ++ 32 ∷ spec.reply_text (N.book names.now) reply ++ 10 ∷ text.now) }
{
    push_words(name, b" ", out)?;
    push_reply(names, reply, out)?;
    out.push(b'\n')?;
    out.extend_from_slice(text)
}

/// Appends a number.
pub(crate) fn push_decimal<I: Integer>(n: I, out: &mut Vec<u8>) -> Pushed
    ensures { Appends result out.old out.new (I.text n) }
{
    let mut buffer = Buffer::new();
    out.extend_from_slice(buffer.format(n).as_bytes())
}

/// Appends a number and its text.
fn push_numbered(n: u8, text: &[u8], out: &mut Vec<u8>) -> Pushed
    ensures { Appends result out.old out.new (spec.numbered n text.now) }
{
    push_decimal(n, out)?;
    out.push(b' ')?;
    out.extend_from_slice(text)
}

/// Appends a reply, without its line's first word and its line feed.
#[tactic(auto, unfolding(crate::specs::Replies::reply_text))]
fn push_reply<N: Names>(names: &N, reply: Reply, out: &mut Vec<u8>) -> Pushed
    ensures { Appends result out.old out.new (spec.reply_text (N.book names.now) reply) }
{
    match reply {
        Reply::Done => out.extend_from_slice(b"ok"),
        Reply::Kinds(kinds) => {
            out.extend_from_slice(b"what ")?;
            let types = without_space(kinds);
            push_decimal(types.len() as u64, out)?;
            push_types(names, types, out)
        }
        Reply::Saved(lines) => {
            out.extend_from_slice(b"saved ")?;
            push_decimal(lines as u64, out)
        }
        Reply::Count { errors, pending } => {
            out.extend_from_slice(b"count ")?;
            push_decimal(errors, out)?;
            out.extend_from_slice(b" errors")?;
            push_pending(pending, out)
        }
        Reply::Why(rules) => {
            out.extend_from_slice(b"why ")?;
            push_decimal(rules.len() as u64, out)?;
            push_rules(names, rules, out)
        }
        Reply::Refused(refusal) => push_refusal(refusal, out),
        Reply::Stopped { refusal, pending } => {
            push_refusal(refusal, out)?;
            push_pending(pending, out)
        }
    }
}

/// Appends what a look returned, without its line's first word and its line feed.
#[tactic(auto, unfolding(crate::specs::Replies::looked_text))]
fn push_look<N: Names>(names: &N, name: &Name, looked: &Looked, out: &mut Vec<u8>) -> Pushed
    ensures { Appends result out.old out.new (spec.looked_text (N.book names.now) name.now looked.now) }
{
    match looked {
        Looked::Saved(lines) => push_reply(names, Reply::Saved(*lines), out),
        Looked::Why(rules) => push_reply(names, Reply::Why(*rules), out),
        Looked::Status(status) => push_status(status, out),
        Looked::Uses(uses) => push_uses(names, uses.as_slice(), out),
        Looked::Marked(lines) => {
            out.extend_from_slice(b"marked ")?;
            push_decimal(*lines as u64, out)
        }
        Looked::Errors(lines) => {
            out.extend_from_slice(b"errors ")?;
            push_decimal(*lines as u64, out)
        }
        Looked::Violations(found) => push_violations(names, found.as_slice(), out),
        Looked::Journal(journal) => push_journal(names, name, journal, out),
        Looked::Refused(refusal) => push_reply(names, Reply::Refused(*refusal), out),
    }
}

/// Appends how far a session has come, and how many tiles its planes have.
fn push_status(status: &Status, out: &mut Vec<u8>) -> Pushed
    ensures { Appends result out.old out.new (spec.status_text status.now) }
{
    out.extend_from_slice(b"stat ")?;
    push_share(status.entries as u64, status.limit as u64, out)?;
    out.extend_from_slice(b" entries, ")?;
    push_checks(status, out)?;
    out.extend_from_slice(b",")?;
    push_room(status, out)
}

/// Appends how many check steps a session did since its last entry, and how many areas await checking.
#[tactic(auto, unfolding(crate::specs::Replies::checks_text))]
fn push_checks(status: &Status, out: &mut Vec<u8>) -> Pushed
    ensures text { OnOk result (out.new.items ≡ out.old.items ++ spec.checks_text status.now) }
    ensures room { OnErr result (vec_capacity out.old < vec_len out.old + length (spec.checks_text status.now)) }
    ensures capacity { vec_capacity out.old ≤ vec_capacity out.new }
{
    push_decimal(status.steps, out)?;
    out.extend_from_slice(b" steps since, ")?;
    push_decimal(status.areas as u64, out)?;
    out.extend_from_slice(b" dirty")
}

/// Appends how many tiles the planes of a session have.
#[tactic(auto, unfolding(crate::specs::Replies::room_text))]
fn push_room(status: &Status, out: &mut Vec<u8>) -> Pushed
    ensures { Appends result out.old out.new (spec.room_text status.now) }
{
    push_tiles(status.tiles.as_slice(), out)?;
    out.extend_from_slice(b" of ")?;
    push_decimal(status.quota, out)?;
    out.extend_from_slice(b" tiles, ")?;
    push_share(status.mark_tiles as u64, status.quota as u64, out)?;
    out.extend_from_slice(b" mark tiles")
}

/// Appends a number and the most that it may be.
fn push_share(count: u64, limit: u64, out: &mut Vec<u8>) -> Pushed
    ensures { Appends result out.old out.new (spec.share_text count limit) }
{
    push_decimal(count, out)?;
    out.extend_from_slice(b" of ")?;
    push_decimal(limit, out)
}

/// Appends the number of tiles of each plane after a space.
fn push_tiles(counts: &[u32], out: &mut Vec<u8>) -> Pushed
    ensures { Appends result out.old out.new (flat_map spec.tiles_text counts.now) }
{
    for count in counts {
        push_tile_count(*count, out)?;
    }
    Ok(())
}

/// Appends a space and how many tiles a plane has.
fn push_tile_count(count: u32, out: &mut Vec<u8>) -> Pushed
    ensures { Appends result out.old out.new (spec.tiles_text count) }
{
    out.push(b' ')?;
    push_decimal(count, out)
}

/// Appends how many cells are placed, and the line that places each.
fn push_uses<N: Names>(names: &N, uses: &[CellUse], out: &mut Vec<u8>) -> Pushed
    ensures { Appends result out.old out.new
        (codes "uses " ++ decimal (length uses.now) ++ flat_map (spec.use_text (N.book names.now)) uses.now) }
{
    out.extend_from_slice(b"uses ")?;
    push_decimal(uses.len() as u64, out)?;
    push_use_lines(names, uses, out)
}

/// Appends the line that places each cell, after a line feed.
fn push_use_lines<N: Names>(names: &N, uses: &[CellUse], out: &mut Vec<u8>) -> Pushed
    ensures { Appends result out.old out.new (flat_map (spec.use_text (N.book names.now)) uses.now) }
{
    for cell_use in uses {
        push_use(names, cell_use, out)?;
    }
    Ok(())
}

/// Appends a line feed and the line that places a cell, without its own line feed.
fn push_use<N: Names>(names: &N, cell_use: &CellUse, out: &mut Vec<u8>) -> Pushed
    ensures text { OnOk result (out.new.items ≡ out.old.items ++ spec.use_text (N.book names.now) cell_use.now) }
    ensures room { OnErr result (vec_capacity out.old
        < vec_len out.old + length (spec.use_text (N.book names.now) cell_use.now)) }
    ensures capacity { vec_capacity out.old ≤ vec_capacity out.new }
{
    out.extend_from_slice(b"\ngetcell ")?;
    if let Some(name) = names.cell_name(cell_use.cell) {
        out.extend_from_slice(name)?;
    }
    push_offset(cell_use.dx, out)?;
    push_offset(cell_use.dy, out)
}

/// Appends a space and a number.
pub(crate) fn push_offset(offset: i32, out: &mut Vec<u8>) -> Pushed
    ensures { Appends result out.old out.new (32 ∷ signed_decimal offset) }
{
    out.push(b' ')?;
    push_decimal(offset, out)
}

/// Appends the number and the text of a refusal.
fn push_refusal(refusal: Refusal, out: &mut Vec<u8>) -> Pushed
    ensures { Appends result out.old out.new
        (codes "refused " ++ spec.numbered (refusal_number refusal) (refusal_text refusal)) }
{
    out.extend_from_slice(b"refused ")?;
    push_numbered(refusal.number(), refusal.text().as_bytes(), out)
}

/// Appends how many areas await checking.
fn push_pending(pending: usize, out: &mut Vec<u8>) -> Pushed
    ensures { Appends result out.old out.new (spec.pending_text pending) }
{
    out.push(b' ')?;
    push_decimal(pending as u64, out)?;
    out.extend_from_slice(b" pending")
}

/// Appends how many check steps were done, and how they ended.
fn push_step_run(run: &StepRun, out: &mut Vec<u8>) -> Pushed
    ensures { Appends result out.old out.new (spec.steps_text run.now) }
{
    push_decimal(run.done, out)?;
    out.push(b' ')?;
    out.extend_from_slice(stepped_text(run.ended).as_bytes())
}

/// Returns how a check step ended, in words.
fn stepped_text(end: Stepped) -> &'static str
    ensures { result.now ≡ spec.stepped_text end }
{
    match end {
        Stepped::Idle => "idle",
        Stepped::Done => "done",
        Stepped::Full => "full",
        Stepped::Memory => "memory",
    }
}

/// Returns the kinds other than space.
#[tactic(auto, unfolding(crate::specs::Replies::without_space))]
fn without_space(kinds: KindSet) -> KindSet
    ensures { result ≡ spec.without_space kinds }
{
    kinds.difference(KindSet::single(Kind::SPACE))
}

/// Appends the name of each type after a space, in the order of their numbers.
fn push_types<N: Names>(names: &N, types: KindSet, out: &mut Vec<u8>) -> Pushed
    ensures { Appends result out.old out.new (spec.types_text (N.book names.now) types) }
{
    for kind in types.iter() {
        push_after_space(names.type_name(kind), out)?;
    }
    Ok(())
}

/// Appends a space, and a text, if there is one.
pub(crate) fn push_after_space(text: Option<&[u8]>, out: &mut Vec<u8>) -> Pushed
    ensures { Appends result out.old out.new
        (32 ∷ spec.text_if_any (option_map (λ words. words.now) text.entry)) }
{
    out.push(b' ')?;
    push_optional(text, out)
}

/// Appends the text of each rule of the set, in rising order.
fn push_rules<N: Names>(names: &N, rules: RuleSet, out: &mut Vec<u8>) -> Pushed
    ensures { Appends result out.old out.new (spec.rules_text (N.book names.now) rules) }
{
    for n in rules.iter() {
        push_rule(names, n, out)?;
    }
    Ok(())
}

/// Appends the number of a rule in brackets, and its why text.
fn push_rule<N: Names>(names: &N, n: usize, out: &mut Vec<u8>) -> Pushed
    ensures { Appends result out.old out.new (spec.rule_text (N.book names.now) n) }
{
    out.extend_from_slice(b" [")?;
    push_decimal(n as u64, out)?;
    out.extend_from_slice(b"] ")?;
    push_optional(names.why_text(n), out)
}

/// Appends a text, if there is one.
fn push_optional(text: Option<&[u8]>, out: &mut Vec<u8>) -> Pushed
    ensures { Appends result out.old out.new (spec.text_if_any (option_map (λ words. words.now) text.entry)) }
{
    match text {
        Some(text) => out.extend_from_slice(text),
        None => Ok(()),
    }
}
