// The run as it stands, and what a step asks of it.

ghost use Rattle.std.specs.Prelude.{◌≡◌};
ghost use Rattle.fault.specs.Faults.{outcome};
ghost use Rattle.case.specs.Positions.{seen};
ghost use Rattle.case.specs.Steps.{delay_check, value_fits as value_fitting, measured as measuring, time_fits, fire_check};

use super::stack::Stack;
use super::symbols::{LIMIT, clocks_fit};
use automaton::{Action, Rule};
use fault::{Fault, Refusal};

// The scale and the state of a run, its clocks in use and its stack.
#[derive(Clone, Copy)]
pub(crate) struct Position<'a> {
    pub(crate) scale: u32,
    pub(crate) state: u8,
    pub(crate) clocks: &'a [u64],
    pub(crate) stack: &'a Stack,
}

// Only assignments and pushes use the value.
fn value_fits(action: Action, value: u64) -> bool
    ensures { result ≡ value_fitting action value }
{
    match action {
        Action::Assign(_) | Action::Push(_) => value <= LIMIT,
        _ => true,
    }
}

impl<'a> Position<'a> {
    // What is held against the interval: the clock, the value or the top's age. It is 0 where there is no
    // such clock or top: a rule that is held names a clock that is there, and a pop is refused without its top.
    fn measured(&self, action: Action, value: u64) -> u64
        ensures { result ≡ measuring action (seen self.now).clocks (seen self.now).stack value }
    {
        match action {
            Action::Test(clock) => self.clocks.get(clock as usize).copied().unwrap_or(0),
            Action::Pop(_) => self.stack.top().map_or(0, |s| s.age),
            _ => value,
        }
    }

    // A move ignores its interval.
    fn time_fits(&self, rule: Rule, value: u64) -> bool
        ensures { result ≡ time_fits self.now.scale (seen self.now) rule value }
    {
        match rule.action {
            Action::Move => true,
            _ => rule
                .interval
                .contains(self.scale as u64, self.measured(rule.action, value)),
        }
    }

    // Whether the rule may be fired, or the first reason why not.
    pub(crate) fn may_fire(&self, rule: Rule, value: u64) -> Result<(), Fault>
        ensures { outcome result ≡ fire_check self.now.scale (seen self.now) rule value }
    {
        if !value_fits(rule.action, value) {
            return Err(Fault::of_call(Refusal::ValueTooLarge));
        }
        if self.state != rule.from {
            return Err(Fault::of_call(Refusal::OtherState));
        }
        if !self.stack.can_pop(rule.action) {
            return Err(Fault::of_call(Refusal::OtherTop));
        }
        if !self.stack.can_push(rule.action) {
            return Err(Fault::of_call(Refusal::StackFull));
        }
        if !self.time_fits(rule, value) {
            return Err(Fault::of_call(Refusal::OutsideInterval));
        }
        Ok(())
    }

    // Whether so many units may pass.
    pub(crate) fn may_wait(&self, units: u64) -> Result<(), Fault>
        ensures { outcome result ≡ delay_check units (seen self.now) }
    {
        if units <= LIMIT && clocks_fit(self.clocks, units) && self.stack.can_age(units) {
            Ok(())
        } else {
            Err(Fault::of_call(Refusal::ValueTooLarge))
        }
    }
}
