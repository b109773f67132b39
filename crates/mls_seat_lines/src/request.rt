//! What is asked for at a seat.
use mls_wire::{Command, Look};

/// What a line of a session asks for at its seat.
#[derive(Clone, Copy)]
pub enum Request {
    /// A command.
    Run(Command),
    /// A look at the session as it is.
    Look(Look),
    /// The audit of the seat's list.
    Audit,
}
