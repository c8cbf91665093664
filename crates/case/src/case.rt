// A case: the model that is drawn, the run on it, and what is settled about its target.

use super::run::Progress;
use super::stack::Stack;
use automaton::Model;

#[derive(Clone, Copy, Debug, PartialEq, Eq)]
pub enum Standing {
    Undecided,
    Reachable,
    Unreachable,
}

#[derive(Drop)]
pub struct Case {
    pub(crate) model: Model,
    pub(crate) run: Option<Progress>,
    pub(crate) stack: Stack,
    pub(crate) standing: Standing,
}
