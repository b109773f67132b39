//! What a server answers.
use crate::{GrabFault, NotOpen, OpenFault, SessionId};
use mls_session::{Job, Listing, Looked, Outcome, Reply, StepRun, Stepped};

/// The answer to an event.
#[derive(Drop)]
pub enum Answer {
    /// The id of the opened session.
    Opened(Result<SessionId, OpenFault>),
    /// Whether a session was closed.
    Closed(Result<(), NotOpen>),
    /// The reply to a command.
    Commanded(Result<Reply, NotOpen>),
    /// The reply to saving, and the bytes of the own paint's text. There are none unless it was saved.
    Saved(Result<Reply, NotOpen>, Listing<u8>),
    /// What a look returned, and the bytes of the text that comes with it.
    Looked(Result<Looked, NotOpen>, Listing<u8>),
    /// What a check of the first piece needs, if an area awaits checking.
    Grabbed(Result<Option<Job>, GrabFault>),
    /// How finishing ended.
    Finished(Result<Outcome, NotOpen>),
    /// How the check step ended.
    Stepped(Result<Stepped, NotOpen>),
    /// How many check steps were done, and how they ended.
    SteppedTimes(Result<StepRun, NotOpen>),
    /// How many pieces were taken out of the areas as known to be marked rightly.
    Settled(Result<u64, NotOpen>),
}
