//! The meaning of a line of a script.
use mls_server::{Command, Look, Name, SessionId};
use thiserror::Error;

/// What a line says. A session that must be open has its id beside its name.
#[derive(Clone, Copy)]
pub enum Line {
    /// Nothing: the line has no words, or is a comment.
    Silent,
    /// Opens a session.
    Open(Name),
    /// Closes a session.
    Close(Name, SessionId),
    /// Does a check step in a session.
    Step(Name, SessionId),
    /// Does at most so many check steps in a session.
    Steps(Name, SessionId, u64),
    /// Asks for the number of entries of a session's journal.
    Audit(Name, SessionId),
    /// Looks at a session as it is, outside its journal.
    Look(Name, SessionId, Look),
    /// Carries out a command in a session.
    Run(Name, SessionId, Command),
}

/// Why a line can't be read.
#[derive(Clone, Copy, Debug, PartialEq, Eq, Error)]
#[error("{}", self.numbered().1)]
pub enum LineFault {
    /// There is no such command, its number of words is wrong, or the line is too long.
    UnknownCommand,
    /// A word isn't a number, or the number is out of range.
    BadNumber,
    /// A word isn't a session's name, or is missing.
    BadName,
    /// No session of this name is open.
    NotOpen,
}

impl LineFault {
    ghost use Rattle.std.specs.Prelude.{◌≡◌};
    ghost use Rattle.mls_wire.specs.Says.{line_fault_number, line_fault_text};

    /// Returns the fault's number and its text, as they stand in replies.
    pub fn numbered(self) -> (u8, &'static str)
        ensures { (result.0 ≡ line_fault_number self) × (result.1.now ≡ line_fault_text self) }
    {
        match self {
            LineFault::UnknownCommand => (1, "unknown command"),
            LineFault::BadNumber => (2, "bad number"),
            LineFault::BadName => (3, "name"),
            LineFault::NotOpen => (4, "not open"),
        }
    }
}
