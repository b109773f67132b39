//! Areas of a layout that await checking, and the marks that checks leave (Taylor and Ousterhout 1984).
#![tactic(auto)]

mod carrying;
mod catching_up;
mod check_context;
mod checked;
mod differing;
mod dirty;
mod error_plane;
mod errors_in;
mod expecting;
mod gathering;
mod halving;
mod job;
pub mod laws;
mod mark_pieces;
mod marks;
mod opening;
mod set_strips;
mod shown_marks;
mod stretch;
mod stretches;
mod violated;
mod violation;

pub use catching_up::CaughtUp;
pub use check_context::CheckContext;
pub use checked::Checked;
pub use dirty::Dirty;
pub use error_plane::{ErrorPlane, Outcome, Stepped};
pub use gathering::violations;
pub use job::Job;
pub use marks::{Recount, mark};
pub use opening::opening_areas;
pub use violated::why;
pub use violation::Violation;
