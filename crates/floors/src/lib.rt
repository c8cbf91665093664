#![tactic(auto)]

// A vendor's abstraction, as an example: of each stack frame it remembers only how old the symbol
// on top is at least. Time lets ages grow, so the bound stays, and a pop whose interval ends below it
// cannot happen.

ghost use Rattle.std.specs.Prelude.{◌≡◌, [], ◌∷◌};
ghost use Rattle.abstraction.specs.Owes.{Covers};
ghost use Rattle.abstraction.specs.Room.{shapes as shapes_of};
ghost use Rattle.floors.specs.Floors.{floors, at_least_so_old, popped_list};
ghost use Rattle.floors.specs.Covering;

use abstraction::{Abstraction, Interval, Listing, Scope};

// The top is at least `age` units old.
#[derive(Clone, Copy, Debug, PartialEq, Eq)]
pub struct Floor {
    pub age: u64,
}

#[derive(Clone, Copy)]
pub struct Floors;

impl Floors {
    pub fn new() -> Floors
        ensures { Covers (floors result) (at_least_so_old result) }
    {
        Floors
    }
}

fn list_popped(i: Interval, s: Floor, u: Floor, out: &mut Listing<Floor>)
    ensures { shapes_of out.new ≡ popped_list i s u }
{
    out.clear();
    // Something at least so old may still keep to the upper bound.
    if i.upper.allows(1, u.age) {
        out.add(s);
    }
}

impl Abstraction for Floors {
    type Shape = Floor;

    ghost answers = { floors };

    ghost meaning = { at_least_so_old };

    ghost lists = { λ a. Covering.lists a };

    fn lawful(&self, scope: Scope, s: Floor) -> bool {
        s.age <= scope.top
    }

    fn start(&self, scope: Scope) -> Floor {
        Floor { age: 0 }
    }

    fn time(&self, scope: Scope, s: Floor, out: &mut Listing<Floor>) {
        out.only(s);
    }

    fn test(&self, scope: Scope, clock: u64, i: Interval, s: Floor, out: &mut Listing<Floor>) {
        out.only(s);
    }

    fn assign(&self, scope: Scope, clock: u64, i: Interval, s: Floor, out: &mut Listing<Floor>) {
        out.only(s);
    }

    fn push(&self, scope: Scope, i: Interval, s: Floor, out: &mut Listing<Floor>) {
        out.only(Floor {
            age: i.lower.bound() as u64,
        });
    }

    fn pop(&self, scope: Scope, i: Interval, s: Floor, u: Floor, out: &mut Listing<Floor>) {
        list_popped(i, s, u, out);
    }

    fn within(&self, scope: Scope, s: Floor, t: Floor) -> bool {
        t.age <= s.age
    }
}

#[cfg(test)]
mod tests;
