// The calls on a case. Each takes all numbers, and works or refuses; a refusal changes nothing. Each says
// `kept` of its own: it ties two states, which no invariant of the type does.

ghost use Rattle.std.specs.Prelude.{◌≡◌, ℕ, false, is_ok, IfOk};
ghost use Rattle.fault.specs.Faults.{outcome};
ghost use Rattle.automaton.specs.Insert.{SameReach};
ghost use Rattle.automaton.specs.Models.{automaton};
ghost use Rattle.automaton.specs.Edits.{open_outcome, add_outcome, remove_outcome, retarget_outcome, insert_outcome};
ghost use Rattle.case.specs.Views.{view};
ghost use Rattle.case.specs.Laws.{Begins, Delays, FiresSo};
ghost use Rattle.case.specs.Calls.{new_case, open_view, add_view, remove_view, retarget_view, insert_view, void, begin_outcome, begin_after, delay_outcome, delay_after, fire_outcome, fire_after};

use super::case::{Case, Standing};
use super::moves::Asked;
use super::run::Progress;
use super::stack::Stack;
use automaton::{Model, Opening, RuleNumbers};
use fault::{Fault, Refusal};
use std::alloc::{AllocError, Global};

const SCALE: u64 = 1_000_000;

impl Case {
    // One state, which is start and target; no run, undecided. Room for 64 rules and 128 symbols is
    // reserved here, so no later call can fail for want of memory.
    pub fn new(heap: Global) -> Result<Case, AllocError>
        ensures { IfOk result (λ c. view c ≡ new_case) }
    {
        let model = Model::new(heap)?;
        let stack = Stack::new(heap)?;
        Ok(Case {
            model,
            run: None,
            stack,
            standing: Standing::Undecided,
        })
    }

    // Makes the case what a new one is.
    pub fn renew(&mut self)
        ensures { view self.new ≡ new_case }
    {
        let _ = self.open(Opening {
            states: 1,
            start: 0,
            target: 0,
            labels: 0,
            clocks: 0,
        });
    }

    // Each of the five edits is written out: one function for all, with a closure for the edit, would be
    // as long, since each caller has to say its clauses again.

    // Sets all sizes, start and target, with no rules.
    pub fn open(&mut self, opening: Opening) -> Result<(), Fault>
        ensures answer { outcome result ≡ open_outcome opening }
        ensures after { view self.new ≡ open_view opening (view self.old) }
        ensures kept { is_ok result ≡ false → self.new ≡ self.old }
    {
        self.model.open(opening)?;
        self.forget();
        Ok(())
    }

    // Appends the rule that eight numbers write.
    pub fn add(&mut self, numbers: RuleNumbers) -> Result<(), Fault>
        ensures answer { outcome result ≡ void (add_outcome numbers (automaton self.old.model)) }
        ensures after { view self.new ≡ add_view numbers (view self.old) }
        ensures kept { is_ok result ≡ false → self.new ≡ self.old }
    {
        let _ = self.model.add(numbers)?;
        self.forget();
        Ok(())
    }

    // Takes a rule out; later rules move down.
    pub fn remove(&mut self, place: u64) -> Result<(), Fault>
        ensures answer { outcome result ≡ remove_outcome place (automaton self.old.model) }
        ensures after { view self.new ≡ remove_view place (view self.old) }
        ensures kept { is_ok result ≡ false → self.new ≡ self.old }
    {
        self.model.remove(place)?;
        self.forget();
        Ok(())
    }

    pub fn retarget(&mut self, target: u64) -> Result<(), Fault>
        ensures answer { outcome result ≡ retarget_outcome target (automaton self.old.model) }
        ensures after { view self.new ≡ retarget_view target (view self.old) }
        ensures kept { is_ok result ≡ false → self.new ≡ self.old }
    {
        self.model.retarget(target)?;
        self.forget();
        Ok(())
    }

    // Puts a new clock at a place. The same states are reachable before and after.
    pub fn insert(&mut self, place: u64) -> Result<(), Fault>
        ensures answer { outcome result ≡ insert_outcome place (automaton self.old.model) }
        ensures after { view self.new ≡ insert_view place (view self.old) }
        ensures same { SameReach (automaton self.old.model) (automaton self.new.model) }
        ensures kept { is_ok result ≡ false → self.new ≡ self.old }
    {
        self.model.insert(place)?;
        self.forget();
        Ok(())
    }

    // Starts a run at a scale, in place of any other.
    pub fn begin(&mut self, scale: u64) -> Result<u8, Fault>
        ensures answer { outcome result ≡ begin_outcome scale (view self.old) }
        ensures after { view self.new ≡ begin_after scale (view self.old) }
        ensures law { Begins scale (view self.old) (outcome result) (view self.new) }
        ensures kept { is_ok result ≡ false → self.new ≡ self.old }
    {
        if scale < 1 || scale > SCALE {
            return Err(Fault::of_call(Refusal::ScaleOutOfRange));
        }
        let state = self.model.start();
        self.stack.clear();
        Ok(self.arrive(Progress {
            scale: scale as u32,
            state,
            clocks: [0; 3],
        }))
    }

    // Lets units pass.
    pub fn delay(&mut self, units: u64) -> Result<u8, Fault>
        ensures answer { outcome result ≡ delay_outcome units (view self.old) }
        ensures after { view self.new ≡ delay_after units (view self.old) }
        ensures law { Delays units (view self.old) (outcome result) (view self.new) }
        ensures kept { is_ok result ≡ false → self.new ≡ self.old }
    {
        self.step(Asked::Delay(units))
    }

    // Fires the rule at a place with a value, which assignments and pushes use.
    pub fn fire(&mut self, place: u64, value: u64) -> Result<u8, Fault>
        ensures answer { outcome result ≡ fire_outcome place value (view self.old) }
        ensures after { view self.new ≡ fire_after place value (view self.old) }
        ensures law { FiresSo place value (view self.old) (outcome result) (view self.new) }
        ensures kept { is_ok result ≡ false → self.new ≡ self.old }
    {
        match self.model.rule(place) {
            Some(rule) => self.step(Asked::Fire(rule, rule.action, value)),
            None => Err(Fault::of_call(Refusal::NoSuchRule)),
        }
    }

    pub fn standing(&self) -> Standing
        ensures { result ≡ (view self.now).standing }
    {
        self.standing
    }
}
