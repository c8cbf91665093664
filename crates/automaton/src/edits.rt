// The edits of a model, each accepted or refused as a whole. Each says `kept` of its own: it ties two
// states, which no invariant of the type does.

ghost use Rattle.std.specs.Prelude.{◌≡◌, false, is_ok, IfOk};
ghost use Rattle.fault.specs.Faults.{outcome};
ghost use Rattle.automaton.specs.Insert.{SameReach};
ghost use Rattle.automaton.specs.Models.{automaton};
ghost use Rattle.automaton.specs.Edits.{fresh, sizes_fit, ends_fit, open_outcome, open_after, add_outcome, add_after, remove_outcome, remove_after, retarget_outcome, retarget_after, insert_outcome, insert_after};

use super::model::{Model, Opening};
use super::rule::{Rule, RuleNumbers, Sizes};
use super::table::RuleTable;
use fault::{Fault, Refusal};
use std::alloc::{AllocError, Global};

pub const RULES: usize = 64;

fn sizes_fit(o: Opening) -> bool
    ensures { result ≡ sizes_fit o }
{
    o.states >= 1 && o.states <= 64 && o.labels <= 16 && o.clocks <= 3
}

fn ends_fit(o: Opening) -> bool
    ensures { result ≡ ends_fit o }
{
    o.start < o.states && o.target < o.states
}

impl Model {
    // One state, which is start and target; room for 64 rules.
    pub fn new(heap: Global) -> Result<Model, AllocError>
        ensures { IfOk result (λ m. automaton m ≡ fresh) }
    {
        let items = Vec::with_capacity(heap, RULES)?;
        let sizes = Sizes {
            states: 1,
            labels: 0,
            clocks: 0,
        };
        Ok(Model {
            sizes,
            start: 0,
            target: 0,
            rules: RuleTable { items },
        })
    }

    // Sets all sizes, start and target, with no rules.
    pub fn open(&mut self, o: Opening) -> Result<(), Fault>
        ensures answer { outcome result ≡ open_outcome o }
        ensures after { automaton self.new ≡ open_after o (automaton self.old) }
        ensures kept { is_ok result ≡ false → self.new ≡ self.old }
    {
        if !sizes_fit(o) {
            return Err(Fault::of_call(Refusal::SizeOutOfRange));
        }
        if !ends_fit(o) {
            return Err(Fault::of_call(Refusal::NoSuchState));
        }
        self.rules.items.clear();
        self.sizes = Sizes {
            states: o.states as u8,
            labels: o.labels as u8,
            clocks: o.clocks as u8,
        };
        self.start = o.start as u8;
        self.target = o.target as u8;
        Ok(())
    }

    // Appends the rule that eight numbers write.
    pub fn add(&mut self, n: RuleNumbers) -> Result<Rule, Fault>
        ensures answer { outcome result ≡ add_outcome n (automaton self.old) }
        ensures after { automaton self.new ≡ add_after n (automaton self.old) }
        ensures kept { is_ok result ≡ false → self.new ≡ self.old }
    {
        if self.rules.items.len() >= RULES {
            return Err(Fault::of_call(Refusal::RuleTableFull));
        }
        let rule = Rule::read(self.sizes, n)?;
        self.rules.items.push_reserved(rule);
        Ok(rule)
    }

    // Takes a rule out; later rules move down.
    pub fn remove(&mut self, place: u64) -> Result<(), Fault>
        ensures answer { outcome result ≡ remove_outcome place (automaton self.old) }
        ensures after { automaton self.new ≡ remove_after place (automaton self.old) }
        ensures kept { is_ok result ≡ false → self.new ≡ self.old }
    {
        if place >= self.rules.items.len() as u64 {
            return Err(Fault::of_call(Refusal::NoSuchRule));
        }
        let _ = self.rules.items.remove(place as usize);
        Ok(())
    }

    pub fn retarget(&mut self, target: u64) -> Result<(), Fault>
        ensures answer { outcome result ≡ retarget_outcome target (automaton self.old) }
        ensures after { automaton self.new ≡ retarget_after target (automaton self.old) }
        ensures kept { is_ok result ≡ false → self.new ≡ self.old }
    {
        if target >= self.sizes.states as u64 {
            return Err(Fault::of_call(Refusal::NoSuchState));
        }
        self.target = target as u8;
        Ok(())
    }

    // Puts a new clock at a place; rules name the clocks by their new places.
    pub fn insert(&mut self, place: u64) -> Result<(), Fault>
        ensures answer { outcome result ≡ insert_outcome place (automaton self.old) }
        ensures after { automaton self.new ≡ insert_after place (automaton self.old) }
        ensures same { SameReach (automaton self.old) (automaton self.new) }
        ensures kept { is_ok result ≡ false → self.new ≡ self.old }
    {
        if self.sizes.clocks >= 3 {
            return Err(Fault::of_call(Refusal::ClocksFull));
        }
        if place > self.sizes.clocks as u64 {
            return Err(Fault::of_call(Refusal::NoSuchPlace));
        }
        self.rules.raise(place as u8);
        self.sizes.clocks += 1;
        Ok(())
    }
}
