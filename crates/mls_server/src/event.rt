//! What a server is asked for.
use crate::{Name, SessionId};
use mls_session::{Command, Finding, Look};

/// An event on a server.
#[derive(Drop)]
pub enum Event {
    /// Opens a session of this name.
    Open(Name),
    /// Closes a session.
    Close(SessionId),
    /// Carries out a command in a session.
    Command(SessionId, Command),
    /// Saves the own paint of a session.
    Save(SessionId),
    /// Looks at a session as it is.
    Look(SessionId, Look),
    /// Asks for what a check of a session's first piece needs.
    Grab(SessionId),
    /// Marks what a check found in a session.
    Finish(SessionId, Finding),
    /// Does a check step in a session.
    Step(SessionId),
    /// Does at most so many check steps in a session.
    Steps(SessionId, u64),
    /// Takes pieces out of a session's areas whose marks are known to be right.
    Settle(SessionId),
}
