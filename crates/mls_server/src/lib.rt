//! A server of many sessions over one pool of tiles, none of which notices another.
#![tactic(auto)]

mod answer;
mod event;
mod fault;
mod limits;
mod name;
mod server;
mod session_id;

pub use answer::Answer;
pub use event::Event;
pub use fault::{GrabFault, NotOpen, OpenFault};
pub use limits::{Capacity, Limits};
pub use mls_session::{
    CellFault, CellId, CellTiles, CellUse, Command, Entry, Finding, Job, JournalCopy, JournalLimit,
    Look, Looked, Outcome, Quota, Refusal, Reply, Said, Status, StepRun, Stepped, Violation, check,
};
pub use name::Name;
pub use server::Server;
pub use session_id::SessionId;
