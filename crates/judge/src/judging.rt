// A claim that a table keeps the target from all runs of a model.

ghost use Rattle.std.specs.Prelude.{◌≡◌};
ghost use Rattle.automaton.specs.Models.{automaton as automaton_of};

use super::entry::Entry;
use abstraction::Abstraction;
use automaton::{Model, Rule};

// A model, an abstraction with the bound up to which it is asked, and a table.
// The claim is no Model's view: it holds functions, and a model's parts have to be compared.
#[derive(Drop)]
pub(crate) struct Judging<'j, A: Abstraction> {
    pub(crate) model: &'j Model,
    pub(crate) abstraction: &'j A,
    pub(crate) top: u64,
    pub(crate) table: &'j [Entry<A::Shape>],
    // The model's, at hand: they are gone through for each two entries.
    pub(crate) rules: &'j [Rule],
    ghost same_rules: { rules.now ≡ (automaton_of model.now).rules },
}
