#![tactic(auto)]

// Cases: a model, its edits, its runs and its standing.

mod calls;
mod case;
mod evidence;
mod history;
mod moves;
mod position;
mod run;
mod stack;
mod symbols;

pub use case::{Case, Standing};
pub use history::{Call, Calls, NoMore, Reply, Then, Turn, attend};
pub use run::Progress;
pub use stack::Stack;
