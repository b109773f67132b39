//! Edge rules (Taylor and Ousterhout 1984), compiled from the rule lines of a technology.
#![tactic(auto)]

mod boxed_rules;
mod compiling;
mod directions;
mod edge_rule;
mod fault;
mod plane_types;
mod rule_set;
mod rules;

pub use boxed_rules::BoxedRules;
pub use compiling::compile;
pub use directions::Directions;
pub use edge_rule::EdgeRule;
pub use fault::{RuleFault, RuleFaultKind};
pub use mls_geom::Direction;
pub use rule_set::{RuleNumbers, RuleSet};
pub use rules::Rules;
