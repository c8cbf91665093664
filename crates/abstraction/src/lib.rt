#![tactic(auto)]

// What an abstraction of stack frames answers and owes, and the smallest one.

ghost use Rattle.std.specs.Prelude.{◌≡◌, ℕ, ◌≤◌, true, List, [], ◌∷◌, length, IfOk};
ghost use Rattle.abstraction.specs.Bounds.{bound as bound_of, at_least, at_most, inside, Inside, fits as fitting, upper_fits, Fits};
ghost use Rattle.abstraction.specs.Frames.{Frame};
ghost use Rattle.abstraction.specs.Owes.{Answers, Meaning, ListsLawfully, Covers};
ghost use Rattle.abstraction.specs.Room.{added, shapes as shapes_of};
ghost use Rattle.abstraction.specs.Untimed.{untimed, everything};
ghost use Rattle.abstraction.specs.declared.scope.Scope.{Scope};
ghost use Rattle.std.proofs.Common.{rules};

use std::alloc::{AllocError, Global};

mod interval;
mod listing;
mod scope;

pub use interval::{Interval, Lower, Upper};
pub use listing::Listing;
pub use scope::Scope;

const ROOM: usize = 1_048_576;

impl Lower {
    // The whole number that it names.
    pub fn bound(self) -> u8
        ensures { result ≡ bound_of self }
    {
        match self {
            Lower::From(b) | Lower::Over(b) => b,
        }
    }

    // Whether a value, in parts of 1 / scale, keeps to the bound.
    pub fn allows(self, scale: u64, value: u64) -> bool
        ensures { result ≡ at_least scale self value }
    {
        let (d, v) = (scale as u128, value as u128);
        match self {
            Lower::From(b) => b as u128 * d <= v,
            Lower::Over(b) => b as u128 * d < v,
        }
    }
}

impl Upper {
    // Whether a value, in parts of 1 / scale, keeps to the bound.
    pub fn allows(self, scale: u64, value: u64) -> bool
        ensures { result ≡ at_most scale self value }
    {
        let (d, v) = (scale as u128, value as u128);
        match self {
            Upper::Upto(b) => v <= b as u128 * d,
            Upper::Under(b) => v < b as u128 * d,
            Upper::Unbounded => true,
        }
    }
}

impl Interval {
    // All values.
    pub const ANY: Interval = Interval {
        lower: Lower::From(0),
        upper: Upper::Unbounded,
    };

    // Whether a value, in parts of 1 / scale, lies in the interval.
    pub fn contains(self, scale: u64, value: u64) -> bool
        ensures value { result ≡ inside scale self value }
        ensures holds { result ≡ true → Inside scale self value }
        ensures only { Inside scale self value → result ≡ true }
    {
        self.lower.allows(scale, value) && self.upper.allows(scale, value)
    }

    // Whether each finite bound is at most top.
    pub fn fits(self, top: u64) -> bool
        ensures value { result ≡ fitting top self }
        ensures holds { result ≡ true → Fits top self }
        ensures only { Fits top self → result ≡ true }
    {
        self.lower.bound() as u64 <= top
            && match self.upper {
                Upper::Upto(b) | Upper::Under(b) => b as u64 <= top,
                Upper::Unbounded => true,
            }
    }
}

impl<S: Copy> Listing<S> {
    pub fn new(heap: Global) -> Result<Listing<S>, AllocError>
        ensures { IfOk result (λ l. shapes_of l ≡ []) }
    {
        let shapes = Vec::with_capacity(heap, ROOM)?;
        Ok(Listing { shapes })
    }

    pub fn clear(&mut self)
        ensures { shapes_of self.new ≡ [] }
    {
        self.shapes.clear();
    }

    // One shape more, where there is room.
    pub fn add(&mut self, s: S)
        ensures { shapes_of self.new ≡ added (shapes_of self.old) s }
    {
        if self.shapes.len() < ROOM {
            self.shapes.push_reserved(s);
        }
    }

    // Lists one shape and no other.
    pub fn only(&mut self, s: S)
        ensures { shapes_of self.new ≡ s ∷ [] }
    {
        self.clear();
        self.add(s);
    }

    pub fn shapes(&self) -> &[S]
        ensures { result.now ≡ shapes_of self.now }
    {
        &self.shapes
    }
}

// An abstraction has shapes of its own kind and answers questions about them. Its answers are given
// by `answers`, the same each time; `meaning` says which frames a shape covers. Every list holds
// lawful shapes, at most 1,048,576. That the lists cover is not asked here: `Covers` says it, and
// whoever draws conclusions from an answer takes it as a premise. The parts of a question stand apart:
// each question has others, so a struct for them would be no plainer.
pub trait Abstraction {
    type Shape: Copy;

    ghost answers: { Self → Answers Self.Shape };

    ghost meaning: { Self → Meaning Self.Shape };

    fn lawful(&self, scope: Scope, s: Self::Shape) -> bool
        ensures { result ≡ (answers self.now).lawful scope s };

    fn start(&self, scope: Scope) -> Self::Shape
        ensures { result ≡ (answers self.now).start scope };

    fn time(&self, scope: Scope, s: Self::Shape, out: &mut Listing<Self::Shape>)
        ensures { shapes_of out.new ≡ (answers self.now).time scope s };

    fn test(
        &self,
        scope: Scope,
        clock: u64,
        i: Interval,
        s: Self::Shape,
        out: &mut Listing<Self::Shape>,
    )
        ensures { shapes_of out.new ≡ (answers self.now).test scope clock i s };

    fn assign(
        &self,
        scope: Scope,
        clock: u64,
        i: Interval,
        s: Self::Shape,
        out: &mut Listing<Self::Shape>,
    )
        ensures { shapes_of out.new ≡ (answers self.now).assign scope clock i s };

    fn push(&self, scope: Scope, i: Interval, s: Self::Shape, out: &mut Listing<Self::Shape>)
        ensures { shapes_of out.new ≡ (answers self.now).push scope i s };

    fn pop(
        &self,
        scope: Scope,
        i: Interval,
        s: Self::Shape,
        u: Self::Shape,
        out: &mut Listing<Self::Shape>,
    )
        ensures { shapes_of out.new ≡ (answers self.now).pop scope i s u };

    fn within(&self, scope: Scope, s: Self::Shape, t: Self::Shape) -> bool
        ensures { result ≡ (answers self.now).within scope s t };

    ghost lists: { (a : Self) → ListsLawfully (answers a) };
}

// The one shape of the untimed abstraction.
#[derive(Clone, Copy, Debug, PartialEq, Eq)]
pub struct Anything;

// The abstraction that forgets all times: its one shape covers every frame.
#[derive(Clone, Copy)]
pub struct Untimed;

impl Untimed {
    pub fn new() -> Untimed
        ensures { Covers (untimed result) (everything result) }
    {
        Untimed
    }
}

impl Abstraction for Untimed {
    type Shape = Anything;

    ghost answers = { untimed };

    ghost meaning = { everything };

    ghost lists = { Prim.search rules };

    fn lawful(&self, scope: Scope, s: Anything) -> bool {
        true
    }

    fn start(&self, scope: Scope) -> Anything {
        Anything
    }

    fn time(&self, scope: Scope, s: Anything, out: &mut Listing<Anything>) {
        out.only(s);
    }

    fn test(
        &self,
        scope: Scope,
        clock: u64,
        i: Interval,
        s: Anything,
        out: &mut Listing<Anything>,
    ) {
        out.only(s);
    }

    fn assign(
        &self,
        scope: Scope,
        clock: u64,
        i: Interval,
        s: Anything,
        out: &mut Listing<Anything>,
    ) {
        out.only(s);
    }

    fn push(&self, scope: Scope, i: Interval, s: Anything, out: &mut Listing<Anything>) {
        out.only(s);
    }

    fn pop(
        &self,
        scope: Scope,
        i: Interval,
        s: Anything,
        u: Anything,
        out: &mut Listing<Anything>,
    ) {
        out.only(s);
    }

    fn within(&self, scope: Scope, s: Anything, t: Anything) -> bool {
        true
    }
}
