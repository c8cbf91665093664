#![tactic(auto)]

// Worked figures: a proved table about the definitions, and boundaries run through the calls.

ghost use Rattle.std.specs.Prelude.{◌≡◌};
ghost use Rattle.fault.specs.Faults.{outcome};
ghost use Rattle.fault.specs.Faults.Outcome.{accepted};
ghost use Rattle.case.specs.Views.{view};
ghost use Rattle.case.specs.Calls.{begin_after, delay_after, fire_outcome, fire_after};
ghost use Rattle.figures.specs.Drawn.{drawn};
ghost use Rattle.figures.specs.Figures.{Figures};

use automaton::{Opening, RuleNumbers};
use case::Case;
use fault::Fault;

// The worked figures hold of the definitions that the contracts cite.
pub fn figures_stand()
    ensures { Figures }
{}

const SIZES: Opening = Opening {
    states: 4,
    start: 0,
    target: 2,
    labels: 1,
    clocks: 1,
};

// Push label 1 at age 0.
const PUSHING: RuleNumbers = RuleNumbers {
    from: 0,
    to: 1,
    kind: 3,
    argument: 1,
    lower: 0,
    lower_flag: 0,
    upper: 0,
    upper_flag: 0,
};

// Pop it at an age of 1 to 2.
const POPPING: RuleNumbers = RuleNumbers {
    from: 1,
    to: 2,
    kind: 4,
    argument: 1,
    lower: 1,
    lower_flag: 0,
    upper: 2,
    upper_flag: 0,
};

// Test that the clock is below 1.
const TESTING: RuleNumbers = RuleNumbers {
    from: 2,
    to: 3,
    kind: 1,
    argument: 0,
    lower: 0,
    lower_flag: 0,
    upper: 1,
    upper_flag: 1,
};

// Draws the model of the figures, whatever the case held.
pub fn draw(case: &mut Case) -> Result<(), Fault>
    ensures answer { outcome result ≡ accepted tt }
    ensures after { view case.new ≡ drawn }
{
    case.open(SIZES)?;
    case.add(PUSHING)?;
    case.add(POPPING)?;
    case.add(TESTING)
}

// Begins at scale 10, pushes, waits and pops.
pub fn pop_after(case: &mut Case, units: u64) -> Result<u8, Fault>
    ensures answer { outcome result ≡ fire_outcome 1 0 (delay_after units (fire_after 0 0 (begin_after 10 (view case.old)))) }
    ensures after { view case.new ≡ fire_after 1 0 (delay_after units (fire_after 0 0 (begin_after 10 (view case.old)))) }
{
    let _ = case.begin(10);
    let _ = case.fire(0, 0);
    let _ = case.delay(units);
    case.fire(1, 0)
}

#[cfg(test)]
mod tests;
