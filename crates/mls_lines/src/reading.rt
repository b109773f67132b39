//! The reader of lines.
ghost use Rattle.std.specs.Prelude.{◌≡◌, ◌≢◌, ◌<◌, false, IfErr, IsFalse};
ghost use Rattle.mls_lines.specs.DispatchTables as spec;
ghost use Rattle.mls_lines.specs.Scripts.{IsScriptLine};
ghost use Rattle.mls_seat_lines.specs.mls_wire.ScriptLines.{bytes_of_line};
ghost use Rattle.mls_seat_lines.specs.mls_wire.Watches.{HasCause};
ghost use Rattle.mls_seat_lines.specs.mls_wire.declared.serving.ServeFault.TheVariants.{Read as ReadFailed, Write as WriteFailed};

use crate::answering::{Numbered, push_alone};
use crate::hall::{Hall, Queued, Reply, Scripted};
use crossbeam_channel::Sender;
use mls_seat_lines::{LineReader, Name, NextLine, ScriptLine, ServeFault, Watched};
use mls_text::Words;
use std::alloc::{AllocError, Global};
use std::io::Read;
use std::sync::Wait;

/// Where the reader hands lines and replies.
#[derive(Drop)]
pub struct ReaderEnds<N: Scripted> {
    /// The queues of the threads for names.
    pub queues: Vec<Sender<Queued<N>, Global>>,
    pub replies: Sender<Reply<N>, Global>,
}

/// Reads the lines of the script, and hands each to the thread of its name, or replies to it where there is none.
///
/// Returns at the end of the input, or before the next line once the output failed or memory ran out.
pub fn read_lines<N: Scripted, I: Read, R: Wait>(
    rt: &R,
    hall: &Hall,
    ends: ReaderEnds<N>,
    input: &mut Watched<I>,
) -> Result<(), ServeFault>
    requires called { hall.now.symbols ≡ N.symbols }
    requires script { I.remaining input.old.device ≡ N.script }
    ensures cause { IfErr result (λ fault. fault ≡ ReadFailed → HasCause input.new) }
    ensures kind { IfErr result (λ fault. fault ≢ WriteFailed) }
{
    // For its contract alone: the number of calls has 64 bits.
    input.failed();
    let mut reader = LineReader::new();
    let mut n: u128 = 1;
    'lines: while !hall.is_closed() {
        match reader.next_line(input)? {
            NextLine::End => break,
            NextLine::LastLine => {
                hand(rt, hall, &ends, Numbered::new(n, reader.line()))?;
                break;
            }
            NextLine::Line => hand(rt, hall, &ends, Numbered::new(n, reader.line()))?,
        }
        n += 1;
    }
    Ok(())
}

/// Hands a line to the thread of its name, or replies to it where there is none.
fn hand<N: Scripted, R: Wait>(
    rt: &R,
    hall: &Hall,
    ends: &ReaderEnds<N>,
    line: Numbered<'_>,
) -> Result<(), AllocError>
    requires called { hall.now.symbols ≡ N.symbols }
    requires numbered { 0 < line.n }
    requires line { IsScriptLine N.script line.n (bytes_of_line line.line) }
{
    match thread_for(rt, hall, line.line) {
        Some(thread) => queue(rt, hall, ends, thread, line),
        None => reply(rt, hall, ends, &line),
    }
}

/// Returns the number of the thread that a line is for, if any.
fn thread_for<R: Wait>(rt: &R, hall: &Hall, line: ScriptLine<'_>) -> Option<usize> {
    let name = name_for(line)?;
    hall.table.lock(rt).dispatch(&name, is_opening(line))
}

/// Returns the name of the session that a line is for. Only the first two words are looked at.
#[tactic(auto, unfolding(crate::specs::DispatchTables::name_for))]
fn name_for(line: ScriptLine<'_>) -> Option<Name>
    ensures { result ≡ spec.name_for (bytes_of_line line.entry) }
{
    match line {
        ScriptLine::TooLong => None,
        ScriptLine::Text([b'#', ..]) => None,
        ScriptLine::Text(bytes) => name_by(Words::new(bytes)),
    }
}

/// Returns the name that the words of a line are for.
fn name_by(mut words: Words<'_>) -> Option<Name>
    ensures { result ≡ spec.name_by words.entry }
{
    match words.next()? {
        [b'%', ..] => Name::new(words.next()?),
        name => Name::new(name),
    }
}

/// Returns whether a line begins with `%open`.
fn is_opening(line: ScriptLine<'_>) -> bool {
    match line {
        ScriptLine::TooLong => false,
        ScriptLine::Text(bytes) => begins_opening(Words::new(bytes)),
    }
}

/// Returns whether the first word is `%open`.
fn begins_opening(mut words: Words<'_>) -> bool
    ensures { result ≡ spec.is_opening words.entry }
{
    matches!(words.next(), Some(b"%open"))
}

/// Appends a line to the queue of a thread.
fn queue<N: Scripted, R: Wait>(
    rt: &R,
    hall: &Hall,
    ends: &ReaderEnds<N>,
    thread: usize,
    line: Numbered<'_>,
) -> Result<(), AllocError>
    requires { IsScriptLine N.script line.n (bytes_of_line line.line) }
{
    let (Some(queue), ScriptLine::Text(bytes)) = (ends.queues.get(thread), line.line) else {
        return Err(AllocError);
    };
    let queued = Queued::<N>::new(line.n, bytes.to_vec(hall.alloc)?);
    queue.send(rt, queued).map_err(|_| AllocError)
}

/// Answers a line of no thread.
fn reply<N: Scripted, R: Wait>(
    rt: &R,
    hall: &Hall,
    ends: &ReaderEnds<N>,
    line: &Numbered<'_>,
) -> Result<(), AllocError>
    requires called { hall.now.symbols ≡ N.symbols }
    requires numbered { 0 < line.now.n }
    requires line { IsScriptLine N.script line.now.n (bytes_of_line line.now.line) }
{
    let mut text = Vec::new(hall.alloc);
    push_alone::<N>(hall, line, &mut text)?;
    if text.is_empty() {
        return Ok(());
    }
    let reply = Reply::<N>::new(text, true);
    ends.replies.send(rt, reply).map_err(|_| AllocError)
}
