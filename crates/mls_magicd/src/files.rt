//! Files, read by their paths.
ghost use Rattle.std.specs.Prelude.{ℕ, List, IfOk};
ghost use Rattle.mls_magicd.specs.FileReads.{IsUnreadable};

use std::alloc::Global;
use std::io::{self, ErrorKind, Read};
use std::{fs, rt};
use thiserror::Error;

/// Why a file can't be read.
#[derive(Clone, Copy, Debug, PartialEq, Eq, Error)]
pub enum FileFault {
    #[error("unreadable")]
    Unreadable,
    #[error("memory")]
    Memory,
}

/// Where files are read.
pub trait Files {
    // The file at a path may be read as these bytes.
    ghost reads_as: { Self → List ℕ → List ℕ → Type 0 };

    // The file at a path may be unreadable.
    ghost may_fail: { Self → List ℕ → Type 0 };

    /// Reads the whole file at a path.
    fn read(&self, alloc: Global, path: &str) -> Result<Vec<u8>, FileFault>
        ensures bytes { IfOk result (λ bytes. reads_as self.now path.now bytes.items) }
        ensures fault { IsUnreadable (may_fail self.now path.now) result };
}

/// The files of the system that the program runs on, of which nothing is known.
#[derive(Drop)]
pub struct HostFiles<'a, R> {
    runtime: &'a R,
}

impl<'a, R> HostFiles<'a, R> {
    /// The files that the runtime reaches.
    pub fn new(runtime: &'a R) -> HostFiles<'a, R> {
        HostFiles { runtime }
    }
}

impl<R: rt::Files> Files for HostFiles<'_, R> {
    ghost use Rattle.std.specs.Prelude.{⊤};

    ghost reads_as = { λ _ _ _. ⊤ };

    ghost may_fail = { λ _ _. ⊤ };

    fn read(&self, alloc: Global, path: &str) -> Result<Vec<u8>, FileFault> {
        read_file(self.runtime, alloc, path).map_err(fault_of)
    }
}

/// Reads a file to its end.
fn read_file<R: rt::Files>(runtime: &R, alloc: Global, path: &str) -> io::Result<Vec<u8>> {
    let mut bytes = Vec::new(alloc);
    fs::open(runtime, path)?.read_to_end(&mut bytes)?;
    Ok(bytes)
}

/// Maps out-of-memory to `Memory`, everything else to `Unreadable`.
fn fault_of(error: io::Error) -> FileFault {
    match error.kind() {
        ErrorKind::OutOfMemory => FileFault::Memory,
        _ => FileFault::Unreadable,
    }
}
