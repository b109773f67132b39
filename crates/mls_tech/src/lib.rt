//! Technology files (Magic Maintainer's Manual 2): planes, types and design rules.
#![tactic(auto)]

mod drc_line;
mod drc_words;
mod fault;
mod file_lines;
mod joined_lines;
mod list_reader;
mod name;
mod name_kind;
mod name_table;
mod number;
mod rule;
mod rule_line;
mod section;
mod tech;
mod technology_m;
mod token;

pub use fault::{TechFault, TechFaultKind};
pub use rule::{Adjacency, Edge, Rule};
pub use rule_line::{RuleLine, Skipped};
pub use tech::Tech;
pub use technology_m::TECHNOLOGY_M;
