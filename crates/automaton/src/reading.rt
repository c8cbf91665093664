// A rule from eight numbers.

ghost use Rattle.std.specs.Prelude.{◌≡◌, ◌≤◌, true};
ghost use Rattle.fault.specs.Faults.{outcome};
ghost use Rattle.automaton.specs.declared.rule.Rule.{Rule};
ghost use Rattle.automaton.specs.Rules.{states_fit, argument_fits, bounds_fit, action as acting, interval as interval_of, lower as lower_of, upper as upper_of, read_rule};
ghost use Rattle.automaton.specs.Lawful.{Reads};

use super::rule::{Action, Rule, RuleNumbers, Sizes};
use abstraction::{Interval, Lower, Upper};
use fault::{Fault, Refusal};

fn states_fit(sizes: Sizes, n: RuleNumbers) -> bool
    ensures { result ≡ states_fit sizes n }
{
    n.from < sizes.states as u64 && n.to < sizes.states as u64
}

fn argument_fits(sizes: Sizes, kind: u64, argument: u64) -> bool
    ensures { result ≡ argument_fits sizes kind argument }
{
    match kind {
        0 => argument == 0,
        1 | 2 => argument < sizes.clocks as u64,
        _ => argument >= 1 && argument <= sizes.labels as u64,
    }
}

fn bounds_fit(n: RuleNumbers) -> bool
    ensures { result ≡ bounds_fit n }
{
    let bounds = n.lower <= 15 && n.upper <= 15;
    let flags = n.lower_flag <= 1 && n.upper_flag <= 2;
    bounds && flags && (n.upper_flag < 2 || n.upper == 0)
}

// These three are called with numbers that fit, so what is left is the last case.
fn action(kind: u64, argument: u8) -> Action
    ensures { result ≡ acting kind argument }
{
    match kind {
        0 => Action::Move,
        1 => Action::Test(argument),
        2 => Action::Assign(argument),
        3 => Action::Push(argument),
        _ => Action::Pop(argument),
    }
}

fn lower(flag: u64, bound: u8) -> Lower
    ensures { result ≡ lower_of flag bound }
{
    match flag {
        1 => Lower::Over(bound),
        _ => Lower::From(bound),
    }
}

fn upper(flag: u64, bound: u8) -> Upper
    ensures { result ≡ upper_of flag bound }
{
    match flag {
        0 => Upper::Upto(bound),
        1 => Upper::Under(bound),
        _ => Upper::Unbounded,
    }
}

impl Rule {
    // The rule that eight numbers write, for so many states, labels and clocks, or why they write none.
    pub fn read(sizes: Sizes, n: RuleNumbers) -> Result<Rule, Fault>
        ensures value { outcome result ≡ read_rule sizes n }
        ensures law { Reads sizes n (outcome result) }
    {
        if !states_fit(sizes, n) {
            return Err(Fault::of_call(Refusal::RuleStateUnknown));
        }
        if n.kind > 4 {
            return Err(Fault::of_call(Refusal::KindUnknown));
        }
        if !argument_fits(sizes, n.kind, n.argument) {
            return Err(Fault::of_call(Refusal::ArgumentUnfit));
        }
        if !bounds_fit(n) {
            return Err(Fault::of_call(Refusal::BoundUnfit));
        }
        let interval = Interval {
            lower: lower(n.lower_flag, n.lower as u8),
            upper: upper(n.upper_flag, n.upper as u8),
        };
        Ok(Rule {
            from: n.from as u8,
            to: n.to as u8,
            action: action(n.kind, n.argument as u8),
            interval,
        })
    }
}
