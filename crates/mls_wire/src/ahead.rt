//! Scripts that are read whole, before their sessions are opened.
ghost use Rattle.std.specs.Prelude.{◌≡◌, ◌++◌, ◌∷◌, [], Some, IfOk, IfErr, OnOk};
ghost use Rattle.mls_text.specs.Words.{words_of};
ghost use Rattle.mls_wire.specs.Ahead.{SaysScript, StopsReading, ahead_says, is_stepwise};
ghost use Rattle.mls_wire.specs.ScriptLines.{bytes_of_line};

use crate::reader::{LineReader, NextLine};
use crate::{Line, LineFault, Names, ScriptLine, ServeFault, Sessions, Watched, parse_line};
use mls_server::{Name, SessionId};
use mls_text::Words;
use std::alloc::{AllocError, Global};
use std::io::Read;

/// The sessions of a script before any is open. Each may be opened yet.
#[derive(Drop)]
struct Ahead;

impl Sessions for Ahead {
    ghost use Rattle.mls_wire.specs.Ahead.{ids_ahead};

    ghost ids = { λ _. ids_ahead };

    fn session(&self, _name: &Name) -> Option<SessionId> {
        Some(SessionId::of(0))
    }
}

/// Reads a script to its end, and returns what each of its lines says before any session is open.
///
/// `%close`, `%step` and `%steps` are no commands of such a script. A line's session has the id 0, whether it is opened
/// later or not.
///
/// # Errors
///
/// [`ServeFault::Read`] where the input failed, and [`ServeFault::Memory`] where memory ran out.
pub fn read_script<N: Names, R: Read>(
    alloc: Global,
    names: &N,
    input: &mut Watched<R>,
) -> Result<Vec<Result<Line, LineFault>>, ServeFault>
    ensures said { IfOk result (λ said. SaysScript (N.book names.now) (R.remaining input.old.device) said.items) }
    ensures stops { IfErr result (λ fault. StopsReading fault input.new) }
{
    let mut reader = LineReader::new();
    let mut said = Vec::new(alloc);
    'lines: loop {
        match reader.next_line(input)? {
            NextLine::End => return Ok(said),
            NextLine::LastLine => {
                push_said(names, reader.line(), &mut said)?;
                return Ok(said);
            }
            NextLine::Line => push_said(names, reader.line(), &mut said)?,
        }
    }
}

/// Appends what a line says before any session is open.
fn push_said<N: Names>(
    names: &N,
    line: ScriptLine<'_>,
    said: &mut Vec<Result<Line, LineFault>>,
) -> Result<(), AllocError>
    ensures { OnOk result (said.new.items ≡ said.old.items
        ++ ahead_says (N.book names.now) (bytes_of_line line.entry) ∷ []) }
{
    said.push(parse_ahead(names, line))?;
    Ok(())
}

/// Returns what a line says before any session is open, or its first fault.
#[tactic(auto, unfolding(crate::specs::Ahead::ahead_says))]
fn parse_ahead<N: Names>(names: &N, line: ScriptLine<'_>) -> Result<Line, LineFault>
    ensures { result ≡ ahead_says (N.book names.now) (bytes_of_line line.entry) }
{
    let ScriptLine::Text(bytes) = line else {
        return Err(LineFault::UnknownCommand);
    };
    if begins_stepwise(Words::new(bytes)) {
        return Err(LineFault::UnknownCommand);
    }
    parse_line(names, &Ahead, ScriptLine::Text(bytes))
}

/// Returns whether the first word is `%close`, `%step` or `%steps`.
fn begins_stepwise(mut words: Words) -> bool
    ensures { result ≡ is_stepwise words.entry }
{
    let Some(word) = words.next() else {
        return false;
    };
    word == b"%close".as_slice() || word == b"%step".as_slice() || word == b"%steps".as_slice()
}
