ghost use Rattle.std.specs.Prelude.{◌≡◌, ◌≤◌, true, vec_len, vec_capacity};
ghost use Rattle.automaton.specs.Lawful.{all_lawful};

use super::rule::Sizes;
use super::table::RuleTable;

// The sizes, start and target that a model is opened with, of any size, since public calls take all numbers.
#[derive(Clone, Copy)]
pub struct Opening {
    pub states: u64,
    pub start: u64,
    pub target: u64,
    pub labels: u64,
    pub clocks: u64,
}

// The automaton that is drawn: at most 3 clocks, at most 64 rules, each of which speaks of states,
// labels and clocks that are there. Room for 64 rules is reserved.
#[derive(Drop)]
pub struct Model {
    pub(crate) sizes: Sizes,
    pub(crate) start: u8,
    pub(crate) target: u8,
    pub(crate) rules: RuleTable,
    ghost room: { 64 ≤ vec_capacity rules.items },
    ghost few: { vec_len rules.items ≤ 64 },
    ghost timed: { sizes.clocks ≤ 3 },
    ghost lawful: { all_lawful sizes rules.items.items ≡ true },
}
