//! Responses to lines.
use crate::LineFault;
use mls_server::{Answer, Name};

/// The response to a line.
#[derive(Drop)]
pub enum Response {
    /// The line has no command.
    Silent,
    /// The line can't be read.
    Fault(LineFault),
    /// The answer to the event that the line asks for, on the session of this name.
    Answered(Name, Answer),
    /// The number of entries of the session's journal.
    Audited(Name, usize),
}
