//! The session of a name's thread.
ghost use Rattle.std.specs.Prelude.{◌≡◌, Some};
ghost use Rattle.mls_seat_lines.specs.SymbolTables.{book_in};
ghost use Rattle.mls_lines.specs.Beside.{is_check_line, says_beside};
ghost use Rattle.mls_seat_lines.specs.mls_wire.ScriptLines.{bytes_of_line};

use crate::SymbolTable;
use mls_seat_lines::{
    Line, LineFault, Name, Naming, ScriptLine, Seat, SessionId, Sessions, parse_line,
};
use mls_text::Words;

/// A session that is open: its name, and its seat.
#[derive(Drop)]
pub struct Sitting<'l, N: Naming> {
    pub name: Name,
    pub seat: Seat<'l, N>,
}

/// The one session that may be open beside a name's thread. Its id doesn't matter.
#[derive(Drop)]
struct Beside {
    held: Option<Name>,
}

impl Sessions for Beside {
    ghost use Rattle.mls_lines.specs.Beside.{ids_beside};

    ghost ids = { λ beside. ids_beside beside.held };

    fn session(&self, name: &Name) -> Option<SessionId> {
        match &self.held {
            Some(held) if name == held => Some(SessionId::of(0)),
            _ => None,
        }
    }
}

/// Returns what a line says where this session is open, or none, or its first fault. `%step` and `%steps` are no
/// commands.
#[tactic(auto, unfolding(crate::specs::Beside::says_beside))]
pub fn parse(
    symbols: &SymbolTable,
    held: Option<Name>,
    line: ScriptLine<'_>,
) -> Result<Line, LineFault>
    ensures { result ≡ says_beside (book_in symbols.now) held (bytes_of_line line.entry) }
{
    match line {
        ScriptLine::TooLong => Err(LineFault::UnknownCommand),
        ScriptLine::Text(bytes) => parse_text(symbols, held, bytes),
    }
}

/// Returns what the bytes of a line say.
#[tactic(auto, unfolding(crate::specs::Beside::says_beside))]
fn parse_text(symbols: &SymbolTable, held: Option<Name>, bytes: &[u8]) -> Result<Line, LineFault>
    ensures { result ≡ says_beside (book_in symbols.now) held (Some bytes.now) }
{
    if begins_stepwise(Words::new(bytes)) {
        return Err(LineFault::UnknownCommand);
    }
    parse_line(symbols, &Beside { held }, ScriptLine::Text(bytes))
}

/// Returns whether the first word is `%step` or `%steps`.
fn begins_stepwise(mut words: Words) -> bool
    ensures { result ≡ is_check_line words.entry }
{
    matches!(words.next(), Some(b"%step" | b"%steps"))
}
