//! The faults of cells.
ghost use Rattle.std.specs.Prelude.{◌≡◌};
ghost use Rattle.mls_library.specs.Faults.{fault_number, fault_text};
ghost use Rattle.mls_library.specs.declared.fault.CellFaultKind.TheVariants.{Memory, TooManyTiles};

use mls_geom::TooMany;
use std::alloc::{AllocError, AllocFailed};
use std::fmt;
use thiserror::Error;

/// What is wrong with a cell.
#[derive(Clone, Copy, Debug, PartialEq, Eq, Error)]
pub enum CellFaultKind {
    /// The file, or the cell's name, has another form.
    Form,
    /// A section is of no type.
    UnknownLayer,
    /// The cell uses other cells.
    Hierarchy,
    /// The file has another scale.
    Scale,
    /// A rectangle has squares outside the world.
    OutsideWorld,
    /// A plane would have more tiles than a cell's plane may have.
    TooManyTiles,
    /// The library has a cell of the name.
    NameTwice,
    /// The pool has not enough unreserved tiles.
    PoolFull,
    /// Memory ran out.
    Memory,
    /// The cell has a triangle.
    Triangle,
    /// The library has as many cells as it may have.
    LibraryFull,
}

impl CellFaultKind {
    /// Returns the fault's number, from 1 to 11.
    pub fn number(self) -> u8
        ensures { result ≡ fault_number self }
    {
        self.row().0
    }

    /// Returns the fault's text.
    pub fn text(self) -> &'static str
        ensures { result.now ≡ fault_text self }
    {
        self.row().1
    }

    /// Returns the fault's number and its text.
    fn row(self) -> (u8, &'static str)
        ensures number { result.0 ≡ fault_number self }
        ensures text { result.1.now ≡ fault_text self }
    {
        match self {
            CellFaultKind::Form => (1, "form"),
            CellFaultKind::UnknownLayer => (2, "unknown layer"),
            CellFaultKind::Hierarchy => (3, "hierarchy"),
            CellFaultKind::Scale => (4, "scale"),
            CellFaultKind::OutsideWorld => (5, "outside the world"),
            CellFaultKind::TooManyTiles => (6, "too many tiles"),
            CellFaultKind::NameTwice => (7, "name twice"),
            CellFaultKind::PoolFull => (8, "pool full"),
            CellFaultKind::Memory => (9, "memory"),
            CellFaultKind::Triangle => (10, "triangle"),
            CellFaultKind::LibraryFull => (11, "library full"),
        }
    }
}

impl fmt::Display for CellFaultKind {
    fn fmt<W: fmt::Write>(&self, f: &mut fmt::Formatter<W>) -> fmt::Result {
        f.write_str(self.text())
    }
}

/// A fault and the line of the file that has it.
#[derive(Clone, Copy, Debug, PartialEq, Eq, Error)]
#[error("line {line}: {kind}")]
pub struct CellFault {
    /// The line's number, from 1, or 0 for a fault of no line.
    pub line: usize,
    pub kind: CellFaultKind,
}

impl CellFault {
    /// Creates a fault of no line.
    pub(crate) fn of_cell(kind: CellFaultKind) -> CellFault
        ensures { result ≡ record { line = 0; kind = kind } }
    {
        CellFault { line: 0, kind }
    }
}

impl From<AllocError> for CellFault {
    ghost from_gives = { λ _ fault. fault ≡ record { line = 0; kind = Memory } };

    fn from(_error: AllocError) -> CellFault {
        CellFault::of_cell(CellFaultKind::Memory)
    }
}

impl<T: Drop> From<AllocFailed<T>> for CellFault {
    ghost from_gives = { λ _ fault. fault ≡ record { line = 0; kind = Memory } };

    fn from(_error: AllocFailed<T>) -> CellFault {
        CellFault::of_cell(CellFaultKind::Memory)
    }
}

impl From<TooMany> for CellFault {
    ghost from_gives = { λ _ fault. fault ≡ record { line = 0; kind = TooManyTiles } };

    fn from(_: TooMany) -> CellFault {
        CellFault::of_cell(CellFaultKind::TooManyTiles)
    }
}
