//! What is wrong with the rules of a technology.
ghost use Rattle.std.specs.Prelude.{◌≡◌};

use std::fmt;
use thiserror::Error;

/// Why a rule line can't be compiled.
#[derive(Clone, Copy, Debug, PartialEq, Eq, Error)]
pub enum RuleFaultKind {
    /// The line's types don't lie on planes as its keyword demands.
    Planes = 1,
    /// The technology has more rules than the limit.
    TooManyRules,
}

impl RuleFaultKind {
    ghost use Rattle.mls_edgerule.specs.Faults as spec;

    /// The fault's number, 1 or 2.
    pub fn number(self) -> u8
        ensures { result ≡ spec.rule_fault_number self }
    {
        self as u8
    }

    /// The fault in words.
    pub fn text(self) -> &'static str
        ensures { result.now ≡ spec.rule_fault_text self }
    {
        match self {
            RuleFaultKind::Planes => "planes",
            RuleFaultKind::TooManyRules => "too many rules",
        }
    }
}

impl fmt::Display for RuleFaultKind {
    fn fmt<W: fmt::Write>(&self, f: &mut fmt::Formatter<W>) -> fmt::Result {
        f.write_str(self.text())
    }
}

/// A fault, and the line of the file that has it, from 1.
#[derive(Clone, Copy, Debug, PartialEq, Eq, Error)]
#[error("line {line}: {kind}")]
pub struct RuleFault {
    pub line: usize,
    pub kind: RuleFaultKind,
}
