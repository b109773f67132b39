//! What a technology numbers: planes, and the kinds that their squares can show, with sets of the kinds 0 to 63.
#![tactic(auto)]

mod kind;
mod kind_set;
mod plane_number;

pub use kind::Kind;
pub use kind_set::{Iter, KindSet};
pub use plane_number::PlaneNumber;
