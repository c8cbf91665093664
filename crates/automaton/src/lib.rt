#![tactic(auto)]

// Dense-timed pushdown automata: rules, the rule table and the model that users edit.

mod edits;
mod looks;
mod model;
mod reading;
mod rule;
mod table;

pub use edits::RULES;
pub use model::{Model, Opening};
pub use rule::{Action, Rule, RuleNumbers, Sizes, Symbol};
pub use table::RuleTable;
