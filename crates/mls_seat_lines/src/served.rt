//! How a script ends whose sessions are served at seats.

/// How the sessions of a script ended.
#[derive(Clone, Copy, Debug, PartialEq, Eq)]
pub struct Served {
    /// Whether the list of each session was audited at its end.
    pub audited: bool,
}
