//! Rules that a small value carries.
ghost use Rattle.std.specs.Prelude.{◌≡◌, IfOk, List};
ghost use Rattle.mls_edgerule.specs.declared.edge_rule.EdgeRule.{EdgeRule};

use crate::Rules;
use std::alloc::{AllocError, Global};
use std::marker::Model;

/// A copy of rules on the heap, so that what carries it is small: [`Rules`] have room for 128, some 4.8 kilobytes.
#[derive(Drop)]
pub struct BoxedRules {
    rules: Box<Rules>,
}

impl Model for BoxedRules {
    ghost Value = { List EdgeRule };

    ghost view = { λ boxed. boxed.rules.value };
}

impl BoxedRules {
    /// Copies rules.
    ///
    /// # Errors
    ///
    /// Out of memory.
    pub fn copy_of(alloc: Global, rules: &Rules) -> Result<BoxedRules, AllocError>
        ensures { IfOk result (λ boxed. boxed ≡ rules.now) }
    {
        Ok(BoxedRules {
            rules: Box::new(alloc, *rules)?,
        })
    }

    /// Returns the rules.
    pub fn as_rules(&self) -> &Rules
        ensures { result.now ≡ self.now }
    {
        &self.rules
    }
}
