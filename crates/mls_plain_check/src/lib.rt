//! What design rules forbid, found by the definition as it stands: a plain program that goes from square to square.
//!
//! [`find`] finds the squares of a piece that the rules forbid in a layout of [`Squares`], and by which rules. It is
//! what `mls_checker` is compared with, in tests.
#![tactic(auto)]

mod forbidden;
mod frame;
mod search;
mod square;
mod squares;

pub use forbidden::Forbidden;
pub use search::find;
pub use square::Square;
pub use squares::Squares;
