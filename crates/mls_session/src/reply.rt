//! What a session replies.
ghost use Rattle.std.specs.Prelude.{◌≡◌};
ghost use Rattle.mls_session.specs.Journals.{is_journalled, is_memory, is_refusal};

use crate::Refusal;
use mls_edgerule::RuleSet;
use mls_kinds::KindSet;

/// The reply to a command.
#[derive(Clone, Copy, Debug, PartialEq, Eq)]
pub enum Reply {
    /// The command is done.
    Done,
    /// The types in the box, space among them.
    Kinds(KindSet),
    /// The number of lines of the own paint's text as a cell file.
    Saved(usize),
    /// How many squares are marked, and how many areas await checking.
    Count { errors: u64, pending: usize },
    /// The rules that forbid some square of the box.
    Why(RuleSet),
    /// The command is refused, and nothing has changed.
    Refused(Refusal),
    /// Catching up stopped before all areas were checked: for each piece that was checked the marks are right, and this
    /// many areas still await checking.
    Stopped { refusal: Refusal, pending: usize },
}

impl Reply {
    /// Returns whether a command with this reply goes into the journal: any, unless it is refused because the journal
    /// is full or because memory ran out.
    pub fn is_journalled(self) -> bool
        ensures { result ≡ is_journalled self }
    {
        !matches!(
            self,
            Reply::Refused(Refusal::JournalFull | Refusal::Memory)
                | Reply::Stopped {
                    refusal: Refusal::JournalFull | Refusal::Memory,
                    ..
                }
        )
    }

    /// Returns whether memory ran out.
    pub(crate) fn is_memory(self) -> bool
        ensures { result ≡ is_refusal is_memory self }
    {
        matches!(
            self,
            Reply::Refused(Refusal::Memory)
                | Reply::Stopped {
                    refusal: Refusal::Memory,
                    ..
                }
        )
    }
}
