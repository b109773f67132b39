//! Numbers of cells.
ghost use Rattle.std.specs.Prelude.{◌≡◌, ℕ};

use std::marker::Model;

/// The number of a cell in its library.
#[derive(Clone, Copy, Debug, PartialEq, Eq)]
pub struct CellId {
    pub(crate) index: usize,
}

impl Model for CellId {
    ghost Value = { ℕ };

    ghost view = { λ id. id.index };

    ghost inverse = { λ index. record { index = index } };
}

impl CellId {
    /// Returns the number.
    pub fn number(self) -> usize
        ensures { result ≡ self }
    {
        self.index
    }
}
