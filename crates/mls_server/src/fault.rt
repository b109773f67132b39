//! Why an event on a server fails.
ghost use Rattle.std.specs.Prelude.{◌≡◌};
ghost use Rattle.mls_server.specs.Faults.{open_fault_number, open_fault_text, open_fault_wording};

use thiserror::Error;

/// No session of this id is open.
#[derive(Clone, Copy, Debug, PartialEq, Eq, Error)]
#[error("not open")]
pub struct NotOpen;

/// Why there is no answer to whether a session has a job.
#[derive(Clone, Copy, Debug, PartialEq, Eq, Error)]
pub enum GrabFault {
    /// No session of this id is open.
    #[error("not open")]
    NotOpen,
    /// Memory ran out.
    #[error("memory")]
    Memory,
}

/// Why a session can't be opened.
#[derive(Clone, Copy, Debug, PartialEq, Eq, Error)]
#[error("{}", self.text())]
pub enum OpenFault {
    /// A session of this name is open already.
    OpenAlready,
    /// No more sessions can be open.
    SessionsFull,
    /// The pool has no room for the planes of a session.
    PoolFull,
    /// Memory ran out.
    Memory,
}

impl OpenFault {
    /// Returns the fault's number in replies.
    pub fn number(self) -> u8
        ensures { result ≡ open_fault_number self }
    {
        let (number, _) = self.wording();
        number
    }

    /// Returns the fault's text in replies.
    pub fn text(self) -> &'static str
        ensures { result.now ≡ open_fault_text self }
    {
        let (_, text) = self.wording();
        text
    }

    /// Returns the fault's number and its text in replies.
    fn wording(self) -> (u8, &'static str)
        ensures { open_fault_wording self ≡ record { number = result.0; text = result.1.now } }
    {
        match self {
            OpenFault::OpenAlready => (1, "open already"),
            OpenFault::SessionsFull => (2, "sessions full"),
            OpenFault::PoolFull => (3, "pool full"),
            OpenFault::Memory => (4, "memory"),
        }
    }
}
