//! Why the program fails.
ghost use Rattle.std.specs.Prelude.{◌≡◌};

use crate::{LoadFault, OptionsFault, TechnologyFault};
use mls_edgerule::RuleFault;
use mls_lines::ServeFault;
use mls_tech::TechFault;
use std::alloc::AllocError;
use thiserror::Error;

/// The exit status where a file is bad or can't be read, or a device or memory failed.
const FAILED: u8 = 1;

/// The exit status where the words of the command line are refused.
const BAD_COMMAND_LINE: u8 = 2;

/// Why the program fails.
#[derive(Debug, Drop, Error)]
pub enum Fault<'a> {
    /// The command line is refused.
    #[error(transparent)]
    Options(OptionsFault<'a>),
    /// There is no technology.
    #[error(transparent)]
    Technology(TechnologyFault<'a>),
    /// A rule line of the technology can't be compiled.
    #[error(transparent)]
    Rule(RuleFault),
    /// A cell isn't loaded.
    #[error(transparent)]
    Cell(LoadFault<'a>),
    /// Memory ran out as the server was made.
    #[error("memory")]
    Memory,
    /// The script was left before its end.
    #[error(transparent)]
    Serve(ServeFault),
    /// A session's replies aren't those of its journal.
    #[error("audit differs")]
    Differs,
}

impl<'a> From<OptionsFault<'a>> for Fault<'a> {
    ghost use Rattle.mls_magicd.specs.declared.fault.Fault.TheVariants.{Options};

    ghost from_gives = { λ cause fault. fault ≡ Options cause };

    fn from(cause: OptionsFault<'a>) -> Self {
        Fault::Options(cause)
    }
}

impl<'a> From<TechnologyFault<'a>> for Fault<'a> {
    ghost use Rattle.mls_magicd.specs.declared.fault.Fault.TheVariants.{Technology};

    ghost from_gives = { λ cause fault. fault ≡ Technology cause };

    fn from(cause: TechnologyFault<'a>) -> Self {
        Fault::Technology(cause)
    }
}

impl From<TechFault> for Fault<'_> {
    ghost use Rattle.mls_magicd.specs.declared.fault.Fault.TheVariants.{Technology};
    ghost use Rattle.mls_magicd.specs.declared.technology.TechnologyFault.TheVariants.{Faulty};

    ghost from_gives = { λ cause fault. fault ≡ Technology (Faulty cause) };

    fn from(cause: TechFault) -> Self {
        Fault::Technology(TechnologyFault::Faulty(cause))
    }
}

impl From<RuleFault> for Fault<'_> {
    ghost use Rattle.mls_magicd.specs.declared.fault.Fault.TheVariants.{Rule};

    ghost from_gives = { λ cause fault. fault ≡ Rule cause };

    fn from(cause: RuleFault) -> Self {
        Fault::Rule(cause)
    }
}

impl<'a> From<LoadFault<'a>> for Fault<'a> {
    ghost use Rattle.mls_magicd.specs.declared.fault.Fault.TheVariants.{Cell};

    ghost from_gives = { λ cause fault. fault ≡ Cell cause };

    fn from(cause: LoadFault<'a>) -> Self {
        Fault::Cell(cause)
    }
}

impl From<AllocError> for Fault<'_> {
    ghost use Rattle.mls_magicd.specs.declared.fault.Fault.TheVariants.{Memory};

    ghost from_gives = { λ _ fault. fault ≡ Memory };

    fn from(_error: AllocError) -> Self {
        Fault::Memory
    }
}

impl From<ServeFault> for Fault<'_> {
    ghost use Rattle.mls_magicd.specs.declared.fault.Fault.TheVariants.{Serve};

    ghost from_gives = { λ cause fault. fault ≡ Serve cause };

    fn from(cause: ServeFault) -> Self {
        Fault::Serve(cause)
    }
}

impl Fault<'_> {
    ghost use Rattle.mls_magicd.specs.Programs.{status_after};

    /// The exit status that the fault ends the program with: 1 or 2.
    pub fn status(&self) -> u8
        ensures { result ≡ status_after self.now }
    {
        match self {
            Fault::Options(OptionsFault::Refused(_)) => BAD_COMMAND_LINE,
            Fault::Options(OptionsFault::BadCell(_)) => BAD_COMMAND_LINE,
            Fault::Options(OptionsFault::Memory) => FAILED,
            Fault::Technology(_) | Fault::Rule(_) | Fault::Cell(_) => FAILED,
            Fault::Memory | Fault::Serve(_) | Fault::Differs => FAILED,
        }
    }
}
