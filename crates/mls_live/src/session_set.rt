//! Sets of sessions.
use mls_server::SessionId;

/// How many sessions a set has room for: as many as may be open.
const ROOM: usize = 64;

/// A set of sessions, which keeps two threads from checking one piece.
///
/// No clause rests on it: where it is full, or wrong, a finding is stale.
#[derive(Drop)]
pub struct SessionSet {
    /// The numbers of the sessions' ids, and 0 where there is none.
    numbers: [u64; ROOM],
}

impl SessionSet {
    /// Creates an empty set.
    pub fn new() -> SessionSet {
        SessionSet { numbers: [0; ROOM] }
    }

    /// Returns whether the session is in the set.
    pub fn contains(&self, id: SessionId) -> bool {
        self.numbers.contains(&id.number())
    }

    /// Adds a session, if there is room.
    pub fn insert(&mut self, id: SessionId) {
        if let Some(free) = self.numbers.iter().position(|number| *number == 0) {
            self.numbers[free] = id.number();
        }
    }

    /// Removes a session.
    pub fn remove(&mut self, id: SessionId) {
        for number in &mut self.numbers {
            if *number == id.number() {
                *number = 0;
            }
        }
    }
}
