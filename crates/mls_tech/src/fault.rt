//! The faults of technology files.
ghost use Rattle.std.specs.Prelude.{◌≡◌};
ghost use Rattle.mls_tech.specs.declared.fault.TechFaultKind.TheVariants.{Memory};

use std::alloc::{AllocError, AllocFailed};
use thiserror::Error;

/// What is wrong with a line of a technology file.
#[derive(Clone, Copy, Debug, PartialEq, Eq, Error)]
#[error("{}", self.text())]
pub enum TechFaultKind {
    NotUtf8 = 1,
    NoEnd,
    UnknownPlane,
    UnknownType,
    NameTwice,
    BadNumber,
    BadList,
    BadForm,
    Limit,
    Memory,
}

/// Whether what stands in a line was taken: it may have a fault.
pub(crate) type Taken = Result<(), TechFaultKind>;

impl TechFaultKind {
    ghost use Rattle.mls_tech.specs.Faults.{fault_number, fault_text};

    /// Returns the fault's number, from 1 to 10.
    pub fn number(self) -> u8
        ensures { result ≡ fault_number self }
    {
        self as u8
    }

    /// Returns the fault's text.
    pub fn text(self) -> &'static str
        ensures { result.now ≡ fault_text self }
    {
        match self {
            TechFaultKind::NotUtf8 => "not UTF-8",
            TechFaultKind::NoEnd => "no end",
            TechFaultKind::UnknownPlane => "unknown plane",
            TechFaultKind::UnknownType => "unknown type",
            TechFaultKind::NameTwice => "name twice",
            TechFaultKind::BadNumber => "bad number",
            TechFaultKind::BadList => "bad list",
            TechFaultKind::BadForm => "bad form",
            TechFaultKind::Limit => "limit",
            TechFaultKind::Memory => "memory",
        }
    }
}

impl From<AllocError> for TechFaultKind {
    ghost from_gives = { λ _ kind. kind ≡ Memory };

    fn from(_error: AllocError) -> TechFaultKind {
        TechFaultKind::Memory
    }
}

impl<T: Drop> From<AllocFailed<T>> for TechFaultKind {
    ghost from_gives = { λ _ kind. kind ≡ Memory };

    fn from(_error: AllocFailed<T>) -> TechFaultKind {
        TechFaultKind::Memory
    }
}

/// A fault and the line of the file that has it.
#[derive(Clone, Copy, Debug, PartialEq, Eq, Error)]
#[error("line {line}: {kind}")]
pub struct TechFault {
    /// The line's number, from 1. It has no meaning where `kind` is `Memory`.
    pub line: usize,
    pub kind: TechFaultKind,
}

impl From<AllocError> for TechFault {
    ghost from_gives = { λ _ fault. fault.kind ≡ Memory };

    fn from(_error: AllocError) -> TechFault {
        TechFault {
            line: 0,
            kind: TechFaultKind::Memory,
        }
    }
}
