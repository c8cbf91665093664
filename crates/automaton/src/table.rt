// The rules of a model by their places.

ghost use Rattle.std.specs.Prelude.{◌≡◌, map, vec_len, vec_capacity};
ghost use Rattle.automaton.specs.Lawful.{Clocked, AllClocked};
ghost use Rattle.automaton.specs.Insert.{raised};

use super::rule::{Action, Rule};

#[derive(Drop)]
pub struct RuleTable {
    pub(crate) items: Vec<Rule>,
}

impl Rule {
    // Names the clock by its new place, once a new clock stands at `at`.
    pub(crate) fn raise(&mut self, at: u8)
        requires { Clocked 3 self.old.action }
        ensures { self.new ≡ raised at self.old }
    {
        // Two arms: with one pattern for both, a proof does not know what is written through it.
        match &mut self.action {
            Action::Test(clock) if *clock >= at => *clock += 1,
            Action::Assign(clock) if *clock >= at => *clock += 1,
            _ => {}
        }
    }
}

impl RuleTable {
    // Lends each rule in turn, to name its clock anew.
    pub(crate) fn raise(&mut self, at: u8)
        requires { AllClocked 3 self.old.items.items }
        ensures items { self.new.items.items ≡ map (raised at) self.old.items.items }
        ensures capacity { vec_capacity self.new.items ≡ vec_capacity self.old.items }
        ensures len { vec_len self.new.items ≡ vec_len self.old.items }
    {
        for rule in self.items.iter_mut() {
            rule.raise(at);
        }
    }
}
