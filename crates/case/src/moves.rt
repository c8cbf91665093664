// One step of the run: a delay, or a rule fired with a value.

ghost use Rattle.std.specs.Prelude.{◌≡◌, false, is_ok};
ghost use Rattle.fault.specs.Faults.{outcome};
ghost use Rattle.automaton.specs.Models.{automaton};
ghost use Rattle.case.specs.Asking.{Asks, step_outcome, step_after};
ghost use Rattle.case.specs.Calls.{edited, delay_run, delayed};
ghost use Rattle.case.specs.Positions.{seen};
ghost use Rattle.case.specs.Views.{configuration, view, stacked, now_at, stood};

use super::case::{Case, Standing};
use super::position::Position;
use super::run::Progress;
use super::symbols::grow;
use automaton::{Action, Rule, Symbol};
use fault::{Fault, Refusal};

// What is asked of a run: that units pass, or that a rule of some kind is fired with a value. The action
// stands beside its rule for `step` to match on: a pattern inside the rule makes `step` too long.
#[derive(Clone, Copy)]
pub(crate) enum Asked {
    Delay(u64),
    Fire(Rule, Action, u64),
}

impl Case {
    // An accepted edit ends the run and leaves the case undecided.
    pub(crate) fn forget(&mut self)
        ensures { (view self.new ≡ edited (automaton self.old.model)) × (automaton self.new.model ≡ automaton self.old.model) }
    {
        self.run = None;
        self.standing = Standing::Undecided;
    }

    // The run stands there now; in the target it settles the case.
    pub(crate) fn arrive(&mut self, p: Progress) -> u8
        ensures state { result ≡ p.state }
        ensures stood { self.new ≡ stood p self.old }
    {
        self.run = Some(p);
        if p.state == self.model.target() {
            self.standing = Standing::Reachable;
        }
        p.state
    }

    // The run as it stands, with the clocks in use.
    fn position<'a>(&'a self, p: &'a Progress) -> Position<'a>
        ensures scale { result.scale ≡ p.now.scale }
        ensures seen { seen result ≡ configuration (automaton self.now.model).clocks p.now (stacked self.now.stack) }
    {
        let n = self.model.sizes().clocks;
        Position {
            scale: p.scale,
            state: p.state,
            clocks: &p.clocks[0..n as usize],
            stack: &self.stack,
        }
    }

    fn wait(&mut self, mut p: Progress, units: u64) -> Result<u8, Fault>
        ensures answer { outcome result ≡ delay_run units (now_at p self.old) }
        ensures after { view self.new ≡ delayed units (view self.old) (now_at p self.old) }
        ensures kept { is_ok result ≡ false → self.new ≡ self.old }
    {
        self.position(&p).may_wait(units)?;
        let n = self.model.sizes().clocks;
        grow(&mut p.clocks[0..n as usize], units);
        self.stack.age(units);
        Ok(self.arrive(p))
    }

    // The run and what is asked of it meet here, in one match: the form that the project asks for, so each
    // arm stands whole.
    pub(crate) fn step(&mut self, asked: Asked) -> Result<u8, Fault>
        requires { Asks (automaton self.old.model).clocks asked }
        ensures answer { outcome result ≡ step_outcome asked (view self.old) }
        ensures after { view self.new ≡ step_after asked (view self.old) }
        ensures kept { is_ok result ≡ false → self.new ≡ self.old }
    {
        match (self.run, asked) {
            (None, _) => Err(Fault::of_call(Refusal::NoRun)),
            (Some(p), Asked::Delay(units)) => self.wait(p, units),
            (Some(mut p), Asked::Fire(rule, Action::Assign(clock), value)) => {
                self.position(&p).may_fire(rule, value)?;
                p.clocks[clock as usize] = value;
                p.state = rule.to;
                Ok(self.arrive(p))
            }
            (Some(mut p), Asked::Fire(rule, Action::Push(label), value)) => {
                self.position(&p).may_fire(rule, value)?;
                self.stack.push(Symbol { label, age: value });
                p.state = rule.to;
                Ok(self.arrive(p))
            }
            (Some(mut p), Asked::Fire(rule, Action::Pop(_), value)) => {
                self.position(&p).may_fire(rule, value)?;
                self.stack.pop();
                p.state = rule.to;
                Ok(self.arrive(p))
            }
            (Some(mut p), Asked::Fire(rule, Action::Move | Action::Test(_), value)) => {
                self.position(&p).may_fire(rule, value)?;
                p.state = rule.to;
                Ok(self.arrive(p))
            }
        }
    }
}
