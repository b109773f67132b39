//! Requests that are handed to sessions.
use mls_seat_lines::Request;

/// A request, and the number of the session that it is handed to: 0 for the one that was opened first.
#[derive(Clone, Copy)]
pub struct Handed {
    /// The session's number.
    pub session: usize,
    /// The request.
    pub request: Request,
}
