//! The result of a command.
ghost use Rattle.std.specs.Prelude.{◌≡◌};

use crate::Reply;

/// The result of a command of a design.
#[derive(Clone, Copy)]
pub(crate) struct Executed {
    /// The reply.
    pub reply: Reply,
    /// How many check steps were done, where memory ran out while the design caught up, and 0 elsewhere.
    pub steps: u64,
}

impl Executed {
    /// Returns the result of a command that did no check step.
    pub fn with(reply: Reply) -> Executed
        ensures reply { result.reply ≡ reply }
        ensures steps { result.steps ≡ 0 }
    {
        Executed { reply, steps: 0 }
    }
}
