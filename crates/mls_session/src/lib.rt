//! Sessions over planes of stitched tiles: each has a design, which commands change and check, and a journal of what
//! was said.
#![tactic(auto)]

mod change;
mod command;
mod design;
mod executed;
mod journal;
mod layers;
mod limits;
mod listing;
mod look;
mod moving;
mod refusal;
mod reply;
mod session;
mod setup;
mod step_run;

pub use command::Command;
pub use journal::{Entry, Said};
pub use limits::{JournalLimit, Quota};
pub use listing::Listing;
pub use look::{JournalCopy, Look, Looked, Status};
pub use mls_checker::{Finding, check};
pub use mls_errorplane::{Checked, Job, Outcome, Stepped, Violation};
pub use mls_layout::{CellUse, Workspace};
pub use mls_library::{CellFault, CellFile, CellId, CellTiles, Library};
pub use refusal::Refusal;
pub use reply::Reply;
pub use session::Session;
pub use setup::Setup;
pub use step_run::StepRun;
