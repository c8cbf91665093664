// What a model tells of itself.

ghost use Rattle.std.specs.Prelude.{◌≡◌, ◌≤◌, true, length, IfSome};
ghost use Rattle.std.specs.List.{slice_get};
ghost use Rattle.automaton.specs.Lawful.{lawful, all_lawful};
ghost use Rattle.automaton.specs.Models.{automaton};
ghost use Rattle.automaton.specs.Edits.{sizes as sizes_of};

use super::model::Model;
use super::rule::{Rule, Sizes};

impl Model {
    pub fn sizes(&self) -> Sizes
        ensures value { result ≡ sizes_of (automaton self.now) }
        ensures timed { result.clocks ≤ 3 }
    {
        self.sizes
    }

    pub fn start(&self) -> u8
        ensures { result ≡ (automaton self.now).start }
    {
        self.start
    }

    pub fn target(&self) -> u8
        ensures { result ≡ (automaton self.now).target }
    {
        self.target
    }

    pub fn rules(&self) -> &[Rule]
        ensures value { result.now ≡ (automaton self.now).rules }
        ensures law { all_lawful (sizes_of (automaton self.now)) result.now ≡ true }
        ensures few { length result.now ≤ 64 }
    {
        self.rules.items.as_slice()
    }

    // The rule at a place, if there is one. Every rule that is held is lawful.
    pub fn rule(&self, place: u64) -> Option<Rule>
        ensures value { result ≡ slice_get (automaton self.now).rules place }
        ensures law { IfSome result (λ x. lawful (sizes_of (automaton self.now)) x ≡ true) }
    {
        self.rules().get(place as usize).copied()
    }
}
