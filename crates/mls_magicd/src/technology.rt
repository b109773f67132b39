//! The technology that is served.
ghost use Rattle.std.specs.Prelude.{◌≡◌, option_map};
ghost use Rattle.mls_tech.specs.Readings.{ReadsUnlessMemory, reading_of};
ghost use Rattle.mls_magicd.specs.Technologies.{OpensTechnology, text_in};

use crate::{FileFault, Files};
use mls_tech::{TECHNOLOGY_M, Tech, TechFault};
use std::alloc::Global;
use thiserror::Error;

/// Why there is no technology.
#[derive(Clone, Copy, Debug, Error)]
pub enum TechnologyFault<'a> {
    /// The file at the path can't be read.
    #[error("cannot read {0}")]
    Unreadable(&'a str),
    /// The technology has a fault.
    #[error("{0}")]
    Faulty(TechFault),
    #[error("memory")]
    Memory,
}

/// The text of a technology.
#[derive(Drop)]
pub enum TechnologyText {
    /// Technology M, which is built in.
    BuiltIn,
    /// What a file has.
    OfFile(Vec<u8>),
}

impl TechnologyText {
    /// Returns what the file at the path has, or the text of technology M where there is no path.
    pub fn open<'a, F: Files>(
        alloc: Global,
        files: &F,
        path: Option<&'a str>,
    ) -> Result<TechnologyText, TechnologyFault<'a>>
        ensures { OpensTechnology (F.reads_as files.now) (F.may_fail files.now)
            (option_map (λ text. text.now) path.entry) result }
    {
        let Some(path) = path else {
            return Ok(TechnologyText::BuiltIn);
        };
        match files.read(alloc, path) {
            Ok(bytes) => Ok(TechnologyText::OfFile(bytes)),
            Err(FileFault::Unreadable) => Err(TechnologyFault::Unreadable(path)),
            Err(FileFault::Memory) => Err(TechnologyFault::Memory),
        }
    }

    /// Reads the technology.
    pub fn read(&self, alloc: Global) -> Result<Tech, TechFault>
        ensures { ReadsUnlessMemory result (reading_of (text_in self.now)) }
    {
        Tech::read(alloc, self.bytes())
    }

    /// Returns the text.
    fn bytes(&self) -> &[u8]
        ensures { result.now ≡ text_in self.now }
    {
        match self {
            TechnologyText::BuiltIn => TECHNOLOGY_M,
            TechnologyText::OfFile(bytes) => bytes.as_slice(),
        }
    }
}
