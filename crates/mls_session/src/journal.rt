//! The commands of a session, with their replies.
ghost use Rattle.std.specs.Prelude.{◌≡◌, ◌≢◌, ◌+◌, ◌==◌, ◌≤◌, ◌^◌, ◌<◌, IfOk, [], length, true};
ghost use Rattle.mls_session.specs.Inner.{after_command, after_steps};
ghost use Rattle.mls_session.specs.Journals.{is_memory, is_refusal};

use crate::executed::Executed;
use crate::{Command, JournalLimit, Reply};
use std::alloc::{AllocError, Global};
use std::marker::Model;

/// A command, and the reply to it.
#[derive(Clone, Copy, PartialEq, Eq)]
pub struct Said {
    pub command: Command,
    pub reply: Reply,
}

/// An entry of a journal: a command with its reply, and how many check steps were done since the entry before.
#[derive(Clone, Copy, PartialEq, Eq)]
pub struct Entry {
    pub checks_before: u64,
    pub said: Said,
}

/// The entries of a journal, and how many check steps were done since the last one.
///
/// Room for all entries that the journal may have is reserved when it is made.
#[derive(Drop)]
pub(crate) struct Journal {
    entries: Vec<Entry>,
    limit: JournalLimit,
    pub(crate) checks: u64,
}

impl Model for Journal {
    ghost use Rattle.std.specs.Prelude.{◌≤◌, length, vec_capacity};
    ghost use Rattle.mls_session.specs.Inner.{Journal};

    ghost Value = { Journal };

    ghost view = { λ j. record { entries = j.entries.items; limit = j.limit; checks = j.checks } };

    ghost invariant = { λ j. (length j.entries.items ≤ j.limit) × (j.limit ≤ vec_capacity j.entries) };
}

impl Journal {
    /// Creates an empty journal that may have this many entries, and reserves room for all of them.
    pub fn with_limit(alloc: Global, limit: JournalLimit) -> Result<Journal, AllocError>
        ensures entries { IfOk result (λ journal. journal.entries ≡ []) }
        ensures limit { IfOk result (λ journal. journal.limit ≡ limit) }
        ensures checks { IfOk result (λ journal. journal.checks ≡ 0) }
    {
        Ok(Journal {
            entries: Vec::with_capacity(alloc, limit.get() as usize)?,
            limit,
            checks: 0,
        })
    }

    /// Returns whether the journal has as many entries as it may have.
    pub fn is_full(&self) -> bool
        ensures { result ≡ (length self.now.entries == self.now.limit) }
    {
        self.entries.len() == self.limit.get() as usize
    }

    /// Adds a command and the reply to it, unless memory ran out, and else counts the check steps that were done.
    ///
    /// The journal must not be full. No memory is taken.
    pub fn keep(&mut self, command: &Command, executed: &Executed)
        requires room { length self.old.entries ≢ self.old.limit }
        requires fits { is_refusal is_memory executed.now.reply ≡ true
            → self.old.checks + executed.now.steps < 2 ^ 64 }
        ensures { self.new ≡ after_command self.old command.now executed.now }
    {
        if executed.reply.is_memory() {
            self.checks += executed.steps;
            return;
        }
        let said = Said {
            command: *command,
            reply: executed.reply,
        };
        self.entries.push_reserved(Entry {
            checks_before: self.checks,
            said,
        });
        self.checks = 0;
    }

    /// Counts check steps that were done.
    pub fn count(&mut self, steps: u64)
        requires fits { self.old.checks + steps < 2 ^ 64 }
        ensures { self.new ≡ after_steps self.old steps }
    {
        self.checks += steps;
    }

    /// Returns the entries.
    pub fn entries(&self) -> &[Entry]
        ensures { result.now ≡ self.now.entries }
    {
        &self.entries
    }
}
