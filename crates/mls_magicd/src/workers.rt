//! How many workers check behind the sessions.
use mls_bounded::Bounded;

/// How many workers check behind the sessions, at most 16, and none by default.
pub type Workers = Bounded<0, 16, 0>;
