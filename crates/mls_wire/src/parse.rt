//! From a line to what it says.
ghost use Rattle.std.specs.Prelude.{◌≡◌};
ghost use Rattle.mls_text.specs.Fields.{fields_of};
ghost use Rattle.mls_wire.specs.Says.{alone_says, asked_by, asked_in, asked_line, asking_says, box_says, command_of, drc_says, dump_says, erase_says, getcell_says, line_says, look_within, moved_cell_says, open_says, sides_say, steps_say, types_named, words_say};
ghost use Rattle.mls_wire.specs.ScriptLines.{bytes_of_line};

use crate::number::{count_written, number_of};
use crate::{Line, LineFault, Names, ScriptLine, Sessions};
use mls_kinds::KindSet;
use mls_server::{CellId, Command, Look, Name, SessionId};
use mls_text::{Fields, Words};

/// What a line asks of an open session, if it is no command.
#[derive(Clone, Copy)]
enum Asked {
    Close,
    Step,
    Steps(u64),
    Audit,
    Look(Look),
}

impl Asked {
    /// Returns the line that asks this of a session.
    fn line(self, name: Name, id: SessionId) -> Line
        ensures { result ≡ asked_line self name id }
    {
        match self {
            Asked::Close => Line::Close(name, id),
            Asked::Step => Line::Step(name, id),
            Asked::Steps(most) => Line::Steps(name, id, most),
            Asked::Audit => Line::Audit(name, id),
            Asked::Look(look) => Line::Look(name, id, look),
        }
    }
}

/// What a word asks of the open session whose name comes next.
#[derive(Clone, Copy)]
enum Asking {
    /// This, and no words follow the name.
    Alone(Asked),
    /// This of the squares between the four lines that follow.
    Within(Within),
    /// As many check steps as the word that follows spells.
    Steps,
}

/// What is asked of the squares between four lines.
#[derive(Clone, Copy)]
enum Within {
    /// The rules that forbid one.
    Why,
    /// The marks, and the areas that await checking.
    Errors,
    /// What each rule forbids.
    Violations,
}

/// The four lines round a rectangle.
#[derive(Clone, Copy)]
struct Sides {
    left: i32,
    bottom: i32,
    right: i32,
    top: i32,
}

impl Within {
    /// Returns the look that asks this of the squares between the lines.
    fn look(self, sides: &Sides) -> Look
        ensures { result ≡ look_within self sides.now }
    {
        let Sides {
            left,
            bottom,
            right,
            top,
        } = *sides;
        match self {
            Within::Why => Look::Why {
                left,
                bottom,
                right,
                top,
            },
            Within::Errors => Look::Errors {
                left,
                bottom,
                right,
                top,
            },
            Within::Violations => Look::Violations {
                left,
                bottom,
                right,
                top,
            },
        }
    }
}

/// A cell, or `None` if none has the name that the user wrote, and how far it is moved to the right and up.
struct MovedCell {
    cell: Option<CellId>,
    dx: i32,
    dy: i32,
}

/// Returns what a line says, or its first fault.
#[tactic(auto, unfolding(crate::specs::Says::line_says))]
pub fn parse_line<N: Names, S: Sessions>(
    names: &N,
    sessions: &S,
    line: ScriptLine<'_>,
) -> Result<Line, LineFault>
    ensures { result ≡ line_says (N.book names.now) (S.ids sessions.now) (bytes_of_line line.entry) }
{
    match line {
        ScriptLine::TooLong => Err(LineFault::UnknownCommand),
        ScriptLine::Text([b'#', ..]) => Ok(Line::Silent),
        ScriptLine::Text(bytes) => parse_words(names, sessions, Words::new(bytes)),
    }
}

/// Returns what the words of a line say.
#[tactic(auto, unfolding(crate::specs::Says::words_say, crate::specs::Says::session_says))]
fn parse_words<N: Names, S: Sessions>(
    names: &N,
    sessions: &S,
    mut words: Words,
) -> Result<Line, LineFault>
    ensures { result ≡ words_say (N.book names.now) (S.ids sessions.now) words.entry }
{
    let Some(first) = words.next() else {
        return Ok(Line::Silent);
    };
    if first == b"%open".as_slice() {
        return parse_open(words);
    }
    if let [b'%', ..] = first {
        return parse_asking(sessions, first, words);
    }
    let name = Name::new(first).ok_or(LineFault::BadName)?;
    let command = parse_command(names, words)?;
    let id = sessions.session(&name).ok_or(LineFault::NotOpen)?;
    Ok(Line::Run(name, id, command))
}

/// Returns what the words after one that asks something of an open session say.
#[tactic(auto, unfolding(crate::specs::Says::asks_says))]
fn parse_asking<S: Sessions>(sessions: &S, word: &[u8], mut words: Words) -> Result<Line, LineFault>
    ensures { result ≡ asking_says (S.ids sessions.now) (asked_by word.now) words.entry }
{
    let asking = asking_by(word).ok_or(LineFault::UnknownCommand)?;
    let name = words.next().and_then(Name::new).ok_or(LineFault::BadName)?;
    let asked = parse_asked(asking, words)?;
    let id = sessions.session(&name).ok_or(LineFault::NotOpen)?;
    Ok(asked.line(name, id))
}

/// Returns what a word asks of the open session whose name comes next.
#[tactic(auto, unfolding(crate::specs::Says::asked_by))]
fn asking_by(word: &[u8]) -> Option<Asking>
    ensures { result ≡ asked_by word.now }
{
    if word == b"%why".as_slice() {
        Some(Asking::Within(Within::Why))
    } else if word == b"%errors".as_slice() {
        Some(Asking::Within(Within::Errors))
    } else if word == b"%violations".as_slice() {
        Some(Asking::Within(Within::Violations))
    } else if word == b"%steps".as_slice() {
        Some(Asking::Steps)
    } else if word == b"%close".as_slice() {
        Some(Asking::Alone(Asked::Close))
    } else if word == b"%step".as_slice() {
        Some(Asking::Alone(Asked::Step))
    } else if word == b"%audit".as_slice() {
        Some(Asking::Alone(Asked::Audit))
    } else if word == b"%save".as_slice() {
        Some(Asking::Alone(Asked::Look(Look::Save)))
    } else if word == b"%stat".as_slice() {
        Some(Asking::Alone(Asked::Look(Look::Status)))
    } else if word == b"%uses".as_slice() {
        Some(Asking::Alone(Asked::Look(Look::Uses)))
    } else if word == b"%marks".as_slice() {
        Some(Asking::Alone(Asked::Look(Look::Marks)))
    } else if word == b"%journal".as_slice() {
        Some(Asking::Alone(Asked::Look(Look::Journal)))
    } else {
        None
    }
}

/// Returns what the words after the session's name ask.
fn parse_asked(asking: Asking, words: Words) -> Result<Asked, LineFault>
    ensures { result ≡ asked_in asking words.entry }
{
    match asking {
        Asking::Alone(asked) => parse_end(asked, words),
        Asking::Within(within) => {
            let sides = parse_sides(words)?;
            Ok(Asked::Look(within.look(&sides)))
        }
        Asking::Steps => parse_steps(words),
    }
}

/// Returns what was said so far, if no words follow.
fn parse_end<T: Drop>(said: T, mut words: Words) -> Result<T, LineFault>
    ensures { result ≡ alone_says said words.entry }
{
    match words.next() {
        None => Ok(said),
        Some(_) => Err(LineFault::UnknownCommand),
    }
}

/// Returns what the words after `%open` say.
#[tactic(auto, unfolding(crate::specs::Says::open_says))]
fn parse_open(mut words: Words) -> Result<Line, LineFault>
    ensures { result ≡ open_says words.entry }
{
    let name = words.next().and_then(Name::new).ok_or(LineFault::BadName)?;
    match words.next() {
        None => Ok(Line::Open(name)),
        Some(_) => Err(LineFault::UnknownCommand),
    }
}

/// Returns the check steps whose number the words spell.
fn parse_steps(mut words: Words) -> Result<Asked, LineFault>
    ensures { result ≡ steps_say words.entry }
{
    let (Some(word), None) = (words.next(), words.next()) else {
        return Err(LineFault::UnknownCommand);
    };
    let most = count_written(word).ok_or(LineFault::BadNumber)?;
    Ok(Asked::Steps(most))
}

/// Returns the command of the words after a session's name.
#[tactic(auto, unfolding(crate::specs::Says::command_of, crate::specs::Says::edit_of))]
fn parse_command<N: Names>(names: &N, mut words: Words) -> Result<Command, LineFault>
    ensures { result ≡ command_of (N.book names.now) words.entry }
{
    let Some(verb) = words.next() else {
        return Err(LineFault::UnknownCommand);
    };
    if verb == b"box".as_slice() {
        parse_box(words)
    } else if verb == b"what".as_slice() {
        parse_end(Command::What, words)
    } else if verb == b"save".as_slice() {
        parse_end(Command::Save, words)
    } else if verb == b"drc".as_slice() {
        parse_drc(words)
    } else if verb == b"paint".as_slice() {
        let (Some(name), None) = (words.next(), words.next()) else {
            return Err(LineFault::UnknownCommand);
        };
        Ok(Command::Paint(names.type_of(name)))
    } else if verb == b"erase".as_slice() {
        parse_erase(names, words)
    } else if verb == b"dump".as_slice() {
        parse_dump(names, words)
    } else if verb == b"getcell".as_slice() {
        parse_getcell(names, words)
    } else {
        Err(LineFault::UnknownCommand)
    }
}

/// Returns the command of the words after `box`.
fn parse_box(words: Words) -> Result<Command, LineFault>
    ensures { result ≡ box_says words.entry }
{
    let sides = parse_sides(words)?;
    Ok(Command::Box {
        left: sides.left,
        bottom: sides.bottom,
        right: sides.right,
        top: sides.top,
    })
}

/// Returns the four lines of the words.
#[tactic(auto, unfolding(crate::specs::Says::sides_say, crate::specs::Says::sides_of))]
fn parse_sides(mut words: Words) -> Result<Sides, LineFault>
    ensures { result ≡ sides_say words.entry }
{
    let (Some(left), Some(bottom)) = (words.next(), words.next()) else {
        return Err(LineFault::UnknownCommand);
    };
    let (Some(right), Some(top), None) = (words.next(), words.next(), words.next()) else {
        return Err(LineFault::UnknownCommand);
    };
    match (
        number_of(left),
        number_of(bottom),
        number_of(right),
        number_of(top),
    ) {
        (Some(left), Some(bottom), Some(right), Some(top)) => Ok(Sides {
            left,
            bottom,
            right,
            top,
        }),
        _ => Err(LineFault::BadNumber),
    }
}

/// Returns the command of the words after `erase`.
fn parse_erase<N: Names>(names: &N, mut words: Words) -> Result<Command, LineFault>
    ensures { result ≡ erase_says (N.book names.now) words.entry }
{
    let (Some(list), None) = (words.next(), words.next()) else {
        return Err(LineFault::UnknownCommand);
    };
    Ok(Command::Erase(types_of(names, list)))
}

/// Returns the types whose names stand in a list between commas, or `None` if one of them is of no type.
#[tactic(auto, unfolding(crate::specs::Says::types_named))]
fn types_of<N: Names>(names: &N, list: &[u8]) -> Option<KindSet>
    ensures { result ≡ types_named (N.book names.now) (fields_of list.now) }
{
    let mut types = KindSet::empty();
    for name in Fields::new(list) {
        types.insert(names.type_of(name)?);
    }
    Some(types)
}

/// Returns the command of the words after `dump`.
fn parse_dump<N: Names>(names: &N, words: Words) -> Result<Command, LineFault>
    ensures { result ≡ dump_says (N.book names.now) words.entry }
{
    let MovedCell { cell, dx, dy } = parse_moved_cell(names, words)?;
    Ok(Command::Dump { cell, dx, dy })
}

/// Returns the command of the words after `getcell`.
fn parse_getcell<N: Names>(names: &N, words: Words) -> Result<Command, LineFault>
    ensures { result ≡ getcell_says (N.book names.now) words.entry }
{
    let MovedCell { cell, dx, dy } = parse_moved_cell(names, words)?;
    Ok(Command::GetCell { cell, dx, dy })
}

/// Returns the cell of the first word, moved by the two others.
#[tactic(auto, unfolding(crate::specs::Says::moved_cell_says, crate::specs::Says::moved_by))]
fn parse_moved_cell<N: Names>(names: &N, mut words: Words) -> Result<MovedCell, LineFault>
    ensures { result ≡ moved_cell_says (N.book names.now) words.entry }
{
    let Some(name) = words.next() else {
        return Err(LineFault::UnknownCommand);
    };
    let (Some(dx), Some(dy), None) = (words.next(), words.next(), words.next()) else {
        return Err(LineFault::UnknownCommand);
    };
    match (number_of(dx), number_of(dy)) {
        (Some(dx), Some(dy)) => Ok(MovedCell {
            cell: names.cell_of(name),
            dx,
            dy,
        }),
        _ => Err(LineFault::BadNumber),
    }
}

/// Returns the command of the words after `drc`.
#[tactic(auto, unfolding(crate::specs::Says::drc_of))]
fn parse_drc(mut words: Words) -> Result<Command, LineFault>
    ensures { result ≡ drc_says words.entry }
{
    let (Some(word), None) = (words.next(), words.next()) else {
        return Err(LineFault::UnknownCommand);
    };
    if word == b"check".as_slice() {
        Ok(Command::Check)
    } else if word == b"catchup".as_slice() {
        Ok(Command::CatchUp)
    } else if word == b"why".as_slice() {
        Ok(Command::Why)
    } else if word == b"count".as_slice() {
        Ok(Command::Count)
    } else {
        Err(LineFault::UnknownCommand)
    }
}
