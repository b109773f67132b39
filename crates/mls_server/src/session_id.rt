//! Ids of sessions.
ghost use Rattle.std.specs.Prelude.{◌≡◌};

use std::marker::Model;

/// The id of a session. The n-th session that a server opens has the id n, and no id is given twice.
#[derive(Clone, Copy, Debug, PartialEq, Eq)]
pub struct SessionId(u64);

impl Model for SessionId {
    ghost use Rattle.std.specs.Prelude.{ℕ};

    ghost Value = { ℕ };

    ghost view = { λ id. id.0 };

    ghost inverse = { λ number. record { 0 = number } };
}

impl SessionId {
    /// Returns the id of this number, whether it was given or not.
    pub fn of(number: u64) -> SessionId
        ensures { result ≡ number }
    {
        SessionId(number)
    }

    /// Returns the id's number.
    pub fn number(self) -> u64
        ensures { result ≡ self }
    {
        self.0
    }
}
