//! Which name has which thread.
ghost use Rattle.std.specs.Prelude.{◌≡◌, ◌<◌, IfNone, IfSome, None, is_none, position, replicate};
ghost use Rattle.mls_lines.specs.DispatchTables as spec;

use mls_seat_lines::Name;
use std::marker::Model;

/// How many threads there are for names.
pub const NAME_THREADS: usize = 64;

/// A name that has a thread.
#[derive(Clone, Copy)]
pub struct Assignment {
    name: Name,
    /// How many of its lines wait or are under way.
    waiting: u64,
}

/// Which names have a thread, from their first `%open` line for as long as a session of the name is open or lines of
/// it wait.
#[derive(Drop)]
pub struct DispatchTable {
    entries: [Option<Assignment>; NAME_THREADS],
}

impl Model for DispatchTable {
    ghost use Rattle.std.specs.Prelude.{◌≡◌, List, Option, length};
    ghost use Rattle.mls_lines.specs.declared.dispatch_table.Assignment.{Assignment};

    ghost Value = { List (Option Assignment) };

    ghost view = { λ table. table.entries };

    ghost invariant = { λ table. length table.entries ≡ 64 };
}

impl DispatchTable {
    /// Creates a table of no names.
    pub fn new() -> DispatchTable
        ensures { result ≡ replicate 64 None }
    {
        DispatchTable {
            entries: [None; NAME_THREADS],
        }
    }

    /// Returns the number of the thread for a line of this name, and counts the line. A name that has none gets one
    /// that is free, if the line opens a session.
    pub fn dispatch(&mut self, name: &Name, opens: bool) -> Option<usize>
        ensures thread { result ≡ spec.thread_for name.now opens self.old }
        ensures some { IfSome result (λ thread. self.new ≡ spec.with_line name.now thread self.old) }
        ensures none { IfNone result (self.new ≡ self.old) }
    {
        let thread = self.thread_for(name, opens)?;
        self.entries[thread] = Some(with_line(name, &self.entries[thread]));
        Some(thread)
    }

    /// Notes that a thread is done with a line, and whether its session is open now. The thread is free where it isn't
    /// and no line waits.
    pub fn line_done(&mut self, thread: usize, is_open: bool)
        ensures { self.new ≡ spec.without_line thread is_open self.old }
    {
        if thread < NAME_THREADS {
            self.entries[thread] = done_at(&self.entries[thread], is_open);
        }
    }

    /// Returns the number of the thread for a line of this name.
    fn thread_for(&self, name: &Name, opens: bool) -> Option<usize>
        ensures thread { result ≡ spec.thread_for name.now opens self.now }
        ensures within { IfSome result (λ thread. thread < NAME_THREADS) }
    {
        match self.thread_of(name) {
            Some(thread) => Some(thread),
            None if opens => self.free(),
            None => None,
        }
    }

    /// Returns the number of the thread that this name has.
    fn thread_of(&self, name: &Name) -> Option<usize>
        ensures thread { result ≡ spec.thread_of name.now self.now }
        ensures within { IfSome result (λ thread. thread < NAME_THREADS) }
    {
        self.entries.iter().position(|entry| is_called(name, entry))
    }

    /// Returns the number of the first thread that no name has.
    fn free(&self) -> Option<usize>
        ensures thread { result ≡ position is_none self.now }
        ensures within { IfSome result (λ thread. thread < NAME_THREADS) }
    {
        self.entries.iter().position(|entry| entry.is_none())
    }
}

/// Returns whether a thread is that of this name.
fn is_called(name: &Name, entry: &Option<Assignment>) -> bool
    ensures { result ≡ spec.is_called name.now entry.now }
{
    match entry {
        Some(entry) => entry.name == *name,
        None => false,
    }
}

/// Returns the entry of this name with a line more than waits at a thread.
fn with_line(name: &Name, entry: &Option<Assignment>) -> Assignment
    ensures { result ≡ spec.with_line_at name.now entry.now }
{
    let waiting = match entry {
        Some(entry) => entry.waiting,
        None => 0,
    };
    Assignment {
        name: *name,
        waiting: waiting.saturating_add(1),
    }
}

/// Returns what a thread's entry is once a line less waits.
fn done_at(entry: &Option<Assignment>, is_open: bool) -> Option<Assignment>
    ensures { result ≡ spec.done_at entry.now is_open }
{
    let Some(entry) = entry else {
        return None;
    };
    let waiting = entry.waiting.saturating_sub(1);
    if waiting == 0 && !is_open {
        return None;
    }
    Some(Assignment {
        name: entry.name,
        waiting,
    })
}
