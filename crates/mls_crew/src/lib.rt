//! Whole scripts, each a batch: each session's requests in a thread of their own, and workers that check beside them.
#![tactic(auto)]

mod batch;
mod handed;
mod serving;
mod sorting;
mod threads;

pub use batch::Batch;
pub use handed::Handed;
pub use mls_seat_lines::Served;
