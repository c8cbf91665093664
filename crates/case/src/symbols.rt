// The clocks and the stack of a run: what a step asks of them and does to them.

ghost use Rattle.std.specs.Prelude.{◌≡◌, ◌<◌, true, [], ◌∷◌, map, length, IfOk};
ghost use Rattle.std.specs.List.{list_all};
ghost use Rattle.abstraction.specs.Frames.{plus};
ghost use Rattle.automaton.specs.Runs.{older};
ghost use Rattle.case.specs.Views.{stacked};
ghost use Rattle.case.specs.Steps.{clock_fits, age_fits, top as top_of, labelled, pop_fits, push_fits, below};

use super::stack::Stack;
use automaton::{Action, Symbol};
use std::alloc::{AllocError, Global};

// The greatest time. A text's numbers end there too, but the reader knows of no times.
pub(crate) const LIMIT: u64 = 1_000_000_000_000_000;

const DEPTH: usize = 128;

// Whether a number keeps to the limit after so many units. It is held against what is left to the limit: a
// sum that stops at the greatest number takes twice the instructions, and a stack has many ages.
fn fits(x: u64, units: u64) -> bool
    ensures { result ≡ clock_fits units x }
{
    units <= LIMIT && x <= LIMIT - units
}

// Whether each clock does.
pub(crate) fn clocks_fit(clocks: &[u64], units: u64) -> bool
    ensures { result ≡ list_all (clock_fits units) clocks.now }
{
    clocks.iter().all(|x| fits(*x, units))
}

// Adds the units to each clock. `age` does so to symbols: a closure for their field would be longer than
// the loop.
pub(crate) fn grow(clocks: &mut [u64], units: u64)
    requires { list_all (clock_fits units) clocks.old ≡ true }
    ensures { clocks.new ≡ plus units clocks.old }
{
    for x in clocks.iter_mut() {
        *x += units;
    }
}

impl Stack {
    pub(crate) fn new(heap: Global) -> Result<Stack, AllocError>
        ensures { IfOk result (λ s. stacked s ≡ []) }
    {
        let symbols = Vec::with_capacity(heap, DEPTH)?;
        Ok(Stack { symbols })
    }

    pub(crate) fn clear(&mut self)
        ensures { stacked self.new ≡ [] }
    {
        self.symbols.clear();
    }

    pub(crate) fn top(&self) -> Option<Symbol>
        ensures { result ≡ top_of (stacked self.now) }
    {
        self.symbols.last().copied()
    }

    // Whether the action's pop finds its label on top.
    pub(crate) fn can_pop(&self, action: Action) -> bool
        ensures { result ≡ pop_fits action (stacked self.now) }
    {
        match action {
            Action::Pop(label) => self.top().is_some_and(|s| s.label == label),
            _ => true,
        }
    }

    // Whether the action's push finds room.
    pub(crate) fn can_push(&self, action: Action) -> bool
        ensures { result ≡ push_fits action (stacked self.now) }
    {
        match action {
            Action::Push(_) => self.symbols.len() < DEPTH,
            _ => true,
        }
    }

    // The top first, as the stack is listed.
    pub(crate) fn can_age(&self, units: u64) -> bool
        ensures { result ≡ list_all (age_fits units) (stacked self.now) }
    {
        self.symbols.iter().rev().all(|s| fits(s.age, units))
    }

    // Adds the units to each age.
    pub(crate) fn age(&mut self, units: u64)
        requires { list_all (age_fits units) (stacked self.old) ≡ true }
        ensures { stacked self.new ≡ map (older units) (stacked self.old) }
    {
        for s in self.symbols.iter_mut() {
            s.age += units;
        }
    }

    pub(crate) fn push(&mut self, symbol: Symbol)
        requires { length (stacked self.old) < 128 }
        ensures { stacked self.new ≡ symbol ∷ stacked self.old }
    {
        self.symbols.push_reserved(symbol);
    }

    pub(crate) fn pop(&mut self)
        ensures { stacked self.new ≡ below (stacked self.old) }
    {
        let _ = self.symbols.pop();
    }
}
