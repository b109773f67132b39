//! What stands on a server.
use crate::servers::replies;
use anyhow::{Context, Result};
use mls_geom::Rect;
use mls_server::{GrabFault, Name, Server, SessionId};
use std::alloc::Global;

/// The sessions that rows open.
const LETTERS: [u8; 3] = *b"abc";

/// How many pieces of a session are shown at most.
const MOST_PIECES: u8 = 16;

/// Shows the cells that rows load, each by itself in a session.
const CELLS: &[u8] = b"%open p
p dump c 0 0
p save
p box 0 0 4 4
p erase poly,m1
p dump d 0 0
p save
";

/// Opens sessions until the pool is full: as many as its unreserved tiles allow.
const FILL: &[u8] = b"%open q\n%open r\n%open s\n%open t\n";

/// Prints all that stands on a server: how many ids were given, each session with its journal, its layout, its marks
/// and the pieces that await checking, the cells, and how many more sessions the pool has room for.
pub fn show_server<R: Print>(rt: &R, alloc: Global, server: &mut Server) -> Result<()> {
    print_ids(rt, server)?;
    for letter in LETTERS {
        show_session(rt, alloc, server, letter)?;
    }
    print_joined(rt, &replies(alloc, server, CELLS)?)?;
    print_joined(rt, &replies(alloc, server, FILL)?)
}

/// Prints lines as one.
pub fn print_joined<R: Print>(rt: &R, text: &[u8]) -> Result<()> {
    let mut is_first = true;
    for line in text.split(|byte| *byte == b'\n') {
        if line.is_empty() {
            continue;
        }
        if !is_first {
            rt.print("; ")?;
        }
        rt.write_all(line)?;
        is_first = false;
    }
    rt.println("")?;
    Ok(())
}

/// Prints how many ids were given.
fn print_ids<R: Print>(rt: &R, server: &Server) -> Result<()> {
    let ids = server.ids_given();
    println!(rt; "ids {ids}")?;
    Ok(())
}

/// Prints what a session of this name shows, its areas and marks among it; then what each check of its pieces leaves,
/// and the marks once all are checked.
fn show_session<R: Print>(rt: &R, alloc: Global, server: &mut Server, letter: u8) -> Result<()> {
    let Some(id) = id_of(server, letter)? else {
        return Ok(());
    };
    let name = char::from(letter);
    print_journal(rt, server, letter, id)?;
    let looks = format!(in alloc; "%stat {name}\n{name} drc count\n{name} save\n%marks {name}\n")?;
    print_replies(rt, alloc, server, &looks)?;
    for _ in 0..MOST_PIECES {
        let Some(piece) = first_piece(alloc, server, id)? else {
            break;
        };
        show_step(rt, alloc, server, name, piece)?;
    }
    let marks = format!(in alloc; "%marks {name}\n")?;
    print_replies(rt, alloc, server, &marks)
}

/// Prints a piece of a session that awaits checking, and what a check step leaves.
fn show_step<R: Print>(
    rt: &R,
    alloc: Global,
    server: &mut Server,
    name: char,
    piece: Rect,
) -> Result<()> {
    let (left, bottom) = (piece.left(), piece.bottom());
    let (right, top) = (piece.right(), piece.top());
    print!(rt; "{name} piece {left} {bottom} {right} {top}: ")?;
    let step = format!(in alloc; "%step {name}\n{name} drc count\n")?;
    print_replies(rt, alloc, server, &step)
}

/// Serves a script, and prints the replies as one line.
fn print_replies<R: Print>(rt: &R, alloc: Global, server: &mut Server, script: &str) -> Result<()> {
    print_joined(rt, &replies(alloc, server, script.as_bytes())?)
}

/// Returns the id of the session of this name, if it is open.
fn id_of(server: &Server, letter: u8) -> Result<Option<SessionId>> {
    let name = Name::new(&[letter]).context("no name")?;
    Ok(server.session(&name))
}

/// Prints a session's id, and for each entry of its journal how many check steps were done before it.
fn print_journal<R: Print>(rt: &R, server: &Server, letter: u8, id: SessionId) -> Result<()> {
    let name = char::from(letter);
    let number = id.number();
    let journal = server.journal(id).context("no journal")?;
    let count = journal.len();
    print!(rt; "{name} id {number} journal {count}:")?;
    for entry in journal {
        let checks = entry.checks_before;
        print!(rt; " {checks}")?;
    }
    println!(rt; "")?;
    Ok(())
}

/// Returns the first piece of a session that awaits checking.
fn first_piece(alloc: Global, server: &mut Server, id: SessionId) -> Result<Option<Rect>> {
    match server.grab(alloc, id) {
        Ok(Some(job)) => Ok(Some(job.piece)),
        Ok(None) => Ok(None),
        Err(GrabFault::NotOpen) => Ok(None),
        Err(GrabFault::Memory) => anyhow::bail!("memory"),
    }
}
