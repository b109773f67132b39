//! The lines that play a session's journal again.
ghost use Rattle.std.specs.Prelude.{◌≡◌, ℕ, ◌+◌, ◌++◌, ◌<◌, ◌≤◌, OnErr, OnOk, List, if◌then◌else◌, length, nat_lt, vec_capacity};
ghost use Rattle.std.specs.List.{count_by, flat_map};
ghost use Rattle.std.specs.Option.{option_map, unwrap_or};
ghost use Rattle.mls_wire.specs.JournalLines as spec;
ghost use Rattle.mls_wire.specs.NameBooks as books;
ghost use Rattle.mls_wire.specs.ReadBack as back;
ghost use Rattle.mls_wire.specs.Pushes.{Appends};

use crate::Names;
use crate::reply::{Pushed, push_decimal, push_offset};
use mls_kinds::{Iter, Kind, KindSet};
use mls_server::{CellId, Command, Entry, JournalCopy, Name};
use mls_text::without_return;

/// Appends how many lines play a journal again, and these lines, each after a line feed.
pub(crate) fn push_journal<N: Names>(
    names: &N,
    name: &Name,
    journal: &JournalCopy,
    out: &mut Vec<u8>,
) -> Pushed
    ensures { Appends result out.old out.new (spec.journal_text (N.book names.now) name.now journal.now) }
{
    let lines = line_count(journal);
    push_lines(names, name, lines, journal, out)
}

/// For every command that some line of at most 1,023 bytes says, the line that is written for it says the same, and a
/// line of check steps does as many. Does nothing: the contract is the law.
pub(crate) fn commands_read_back<N: Names>(names: &N)
    ensures commands { back.NamesReadBack (N.book names.now) → back.CommandsReadBack (N.book names.now) }
    ensures lines { back.NamesReadBack (N.book names.now) → back.CommandsAreLines (N.book names.now) }
    ensures steps { back.StepsReadBack (N.book names.now) }
{
    let _names = names;
}

/// Appends a number of lines, and the lines that play a journal again, each after a line feed.
fn push_lines<N: Names>(
    names: &N,
    name: &Name,
    lines: u128,
    journal: &JournalCopy,
    out: &mut Vec<u8>,
) -> Pushed
    ensures { Appends result out.old out.new (spec.counted_text (N.book names.now) name.now lines journal.now) }
{
    out.extend_from_slice(b"journal ")?;
    push_decimal(lines, out)?;
    push_entries(names, name, journal.entries(), out)?;
    push_steps(name, journal.steps(), out)
}

/// Returns how many lines play a journal again.
fn line_count(journal: &JournalCopy) -> u128
    ensures { (book : books.Names) (name : List ℕ) → result ≡ length (spec.journal_lines book name journal.now) }
{
    let entries = journal.entries();
    let last = step_line_count(journal.steps());
    entries.len() as u128 + stepped_count(entries) as u128 + last
}

/// Returns how many lines do this many check steps.
fn step_line_count(steps: u64) -> u128
    ensures value { result ≡ (if nat_lt 0 steps then 1 else 0) }
    ensures few { result ≤ 1 }
{
    u128::from(steps > 0)
}

/// Returns how many entries have check steps before them.
fn stepped_count(entries: &[Entry]) -> usize
    ensures { result ≡ count_by (λ entry. nat_lt 0 entry.checks_before) entries.now }
{
    entries
        .iter()
        .filter(|entry| entry.checks_before > 0)
        .count()
}

/// Appends the lines that play entries again, each after a line feed.
fn push_entries<N: Names>(names: &N, name: &Name, entries: &[Entry], out: &mut Vec<u8>) -> Pushed
    ensures { Appends result out.old out.new (flat_map (spec.entry_text (N.book names.now) name.now) entries.now) }
{
    for entry in entries {
        push_entry(names, name, entry, out)?;
    }
    Ok(())
}

/// Appends the lines that play an entry again, each after a line feed.
fn push_entry<N: Names>(names: &N, name: &Name, entry: &Entry, out: &mut Vec<u8>) -> Pushed
    ensures { Appends result out.old out.new (spec.entry_text (N.book names.now) name.now entry.now) }
{
    push_steps(name, entry.checks_before, out)?;
    out.push(b'\n')?;
    push_command(names, name, &entry.said.command, out)
}

/// Appends the line that does this many check steps after a line feed, or nothing where there are none to do.
fn push_steps(name: &Name, steps: u64, out: &mut Vec<u8>) -> Pushed
    ensures { Appends result out.old out.new (spec.fed_lines (spec.steps_lines name.now steps)) }
{
    if steps == 0 {
        return Ok(());
    }
    out.extend_from_slice(b"\n%steps ")?;
    out.extend_from_slice(name.as_bytes())?;
    out.push(b' ')?;
    push_decimal(steps, out)
}

/// Appends the line that says a command, without its line feed.
fn push_command<N: Names>(names: &N, name: &Name, command: &Command, out: &mut Vec<u8>) -> Pushed
    ensures { Appends result out.old out.new (spec.command_line (N.book names.now) name.now command.now) }
{
    out.extend_from_slice(name.as_bytes())?;
    push_shielded(names, command, out)
}

/// Appends a command, with a space before each of its words, and one after a carriage return at its end.
fn push_shielded<N: Names>(names: &N, command: &Command, out: &mut Vec<u8>) -> Pushed
    ensures { Appends result out.old out.new (spec.shielded (spec.said_text (N.book names.now) command.now)) }
{
    push_said(names, command, out)?;
    push_shield(out)
}

/// Appends a space after a carriage return at the end, which a reader of lines would drop otherwise.
#[tactic(auto, using(crate::proofs::ShieldedLines::shields))]
fn push_shield(out: &mut Vec<u8>) -> Pushed
    ensures text { OnOk result (out.new.items ≡ spec.shielded out.old.items) }
    ensures room { OnErr result (vec_capacity out.old < length (spec.shielded out.old.items)) }
    ensures capacity { vec_capacity out.old ≤ vec_capacity out.new }
{
    if without_return(out).len() < out.len() {
        out.push(b' ')?;
    }
    Ok(())
}

/// Appends a command, with a space before each of its words.
#[tactic(auto, unfolding(crate::specs::JournalLines::command_words))]
fn push_said<N: Names>(names: &N, command: &Command, out: &mut Vec<u8>) -> Pushed
    ensures { Appends result out.old out.new (spec.said_text (N.book names.now) command.now) }
{
    match *command {
        Command::Box {
            left,
            bottom,
            right,
            top,
        } => push_box(left, bottom, right, top, out),
        Command::Paint(kind) => {
            out.extend_from_slice(b" paint ")?;
            push_type(names, kind, out)
        }
        Command::Erase(kinds) => {
            out.extend_from_slice(b" erase ")?;
            push_types(names, kinds, out)
        }
        Command::Dump { cell, dx, dy } => {
            out.extend_from_slice(b" dump ")?;
            push_moved(names, cell, dx, dy, out)
        }
        Command::GetCell { cell, dx, dy } => {
            out.extend_from_slice(b" getcell ")?;
            push_moved(names, cell, dx, dy, out)
        }
        Command::What => out.extend_from_slice(b" what"),
        Command::Save => out.extend_from_slice(b" save"),
        Command::Check => out.extend_from_slice(b" drc check"),
        Command::CatchUp => out.extend_from_slice(b" drc catchup"),
        Command::Why => out.extend_from_slice(b" drc why"),
        Command::Count => out.extend_from_slice(b" drc count"),
    }
}

/// Appends the words of a command that sets the box, with a space before each.
fn push_box(left: i32, bottom: i32, right: i32, top: i32, out: &mut Vec<u8>) -> Pushed
    ensures { Appends result out.old out.new (spec.box_text left bottom right top) }
{
    out.extend_from_slice(b" box")?;
    push_sides(left, bottom, right, top, out)
}

/// Appends four numbers, with a space before each.
pub(crate) fn push_sides(left: i32, bottom: i32, right: i32, top: i32, out: &mut Vec<u8>) -> Pushed
    ensures { Appends result out.old out.new (spec.sides_text left bottom right top) }
{
    push_pair(left, bottom, out)?;
    push_pair(right, top, out)
}

/// Appends two numbers, with a space before each.
fn push_pair(x: i32, y: i32, out: &mut Vec<u8>) -> Pushed
    ensures { Appends result out.old out.new (spec.pair_text x y) }
{
    push_offset(x, out)?;
    push_offset(y, out)
}

/// Appends the shortest name of a type, or a comma where there is none.
fn push_type<N: Names>(names: &N, kind: Option<Kind>, out: &mut Vec<u8>) -> Pushed
    ensures { Appends result out.old out.new (spec.type_word (N.book names.now) kind) }
{
    match kind {
        Some(kind) => push_name(names.short_type_name(kind), out),
        None => push_name(None, out),
    }
}

/// Appends a name, or a comma where there is none.
fn push_name(name: Option<&[u8]>, out: &mut Vec<u8>) -> Pushed
    ensures { Appends result out.old out.new (unwrap_or (option_map (λ word. word.now) name.entry) books.no_name) }
{
    match name {
        Some(word) => out.extend_from_slice(word),
        None => out.extend_from_slice(b","),
    }
}

/// Appends the names of types between commas, type 0 where there are no types, or a comma where there is no set.
fn push_types<N: Names>(names: &N, kinds: Option<KindSet>, out: &mut Vec<u8>) -> Pushed
    ensures { Appends result out.old out.new (spec.types_word (N.book names.now) kinds) }
{
    match kinds {
        Some(kinds) => push_listed(names, kinds.iter(), out),
        None => push_name(None, out),
    }
}

/// Appends the names of kinds between commas, or that of type 0 where there are none.
fn push_listed<N: Names>(names: &N, kinds: Iter, out: &mut Vec<u8>) -> Pushed
    ensures { Appends result out.old out.new (spec.listed_types (N.book names.now) kinds) }
{
    let mut rest = kinds;
    match rest.next() {
        Some(kind) => push_from(names, kind, rest, out),
        None => push_type(names, Some(Kind::SPACE), out),
    }
}

/// Appends the name of a kind, and that of each of the others after a comma.
fn push_from<N: Names>(names: &N, kind: Kind, others: Iter, out: &mut Vec<u8>) -> Pushed
    ensures { Appends result out.old out.new (spec.listed_from (N.book names.now) kind others) }
{
    push_type(names, Some(kind), out)?;
    push_more_types(names, others, out)
}

/// Appends the name of each kind after a comma.
fn push_more_types<N: Names>(names: &N, kinds: Iter, out: &mut Vec<u8>) -> Pushed
    ensures { Appends result out.old out.new (flat_map (spec.next_type (N.book names.now)) kinds) }
{
    for kind in kinds {
        push_next_type(names, kind, out)?;
    }
    Ok(())
}

/// Appends a comma and the name of a type.
fn push_next_type<N: Names>(names: &N, kind: Kind, out: &mut Vec<u8>) -> Pushed
    ensures { Appends result out.old out.new (spec.next_type (N.book names.now) kind) }
{
    out.push(b',')?;
    push_type(names, Some(kind), out)
}

/// Appends the name of a cell, or a comma where there is none, and how far it is moved.
fn push_moved<N: Names>(
    names: &N,
    cell: Option<CellId>,
    dx: i32,
    dy: i32,
    out: &mut Vec<u8>,
) -> Pushed
    ensures { Appends result out.old out.new (spec.cell_word (N.book names.now) cell ++ spec.pair_text dx dy) }
{
    push_cell(names, cell, out)?;
    push_pair(dx, dy, out)
}

/// Appends the name of a cell, or a comma where there is none.
fn push_cell<N: Names>(names: &N, cell: Option<CellId>, out: &mut Vec<u8>) -> Pushed
    ensures { Appends result out.old out.new (spec.cell_word (N.book names.now) cell) }
{
    match cell {
        Some(cell) => push_name(names.cell_name(cell), out),
        None => push_name(None, out),
    }
}
