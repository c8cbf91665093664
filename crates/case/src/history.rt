// Any list of calls on a new case, and the law over what comes of it.

ghost use Rattle.std.specs.Prelude.{◌≡◌, List, [], ◌++◌, length, Some};
ghost use Rattle.case.specs.Views.{view};
ghost use Rattle.case.specs.History.{event, Noted, notes_of, calls as calls_of, events, Carries, AllCarry, Makes, Played, OverCalls};

use super::case::{Case, Standing};
use abstraction::{Abstraction, Listing};
use automaton::{Opening, RuleNumbers};
use fault::Fault;
use judge::Entry;

// A call with what it is given. A judgment brings its abstraction, its table and its top.
#[derive(Drop)]
pub enum Call<'a, A: Abstraction> {
    Open(Opening),
    Add(RuleNumbers),
    Remove(u64),
    Retarget(u64),
    Insert(u64),
    Begin(u64),
    Delay(u64),
    Fire(u64, u64),
    Judge(&'a A, &'a [Entry<A::Shape>], u64),
    Ask,
}

// What a call answered that was not refused.
#[derive(Clone, Copy, Debug, PartialEq, Eq)]
pub enum Reply {
    Done,
    InState(u8),
    Stands(Standing),
}

// A call and its reply, once it is made.
#[derive(Drop)]
pub struct Turn<'a, A: Abstraction> {
    pub call: Call<'a, A>,
    pub reply: Option<Result<Reply, Fault>>,
}

// Makes one call. What judgments are lent, the scratch and the listing, comes beside the case, as `judge`
// takes it; that the scratch keeps its length ties two states, and is said by each that lends it on.
fn make<A: Abstraction>(
    case: &mut Case,
    call: &Call<A>,
    scratch: &mut [u8],
    listing: &mut Listing<A::Shape>,
) -> Result<Reply, Fault>
    ensures made { Makes (Carries A.Abstraction.answers A.Abstraction.meaning call.now) (record { event = event A.Abstraction.answers (length scratch.old) call.now; reply = Some result }) (view case.old) (view case.new) }
    ensures room { length scratch.new ≡ length scratch.old }
{
    match call {
        Call::Open(opening) => case.open(*opening).map(|_| Reply::Done),
        Call::Add(numbers) => case.add(*numbers).map(|_| Reply::Done),
        Call::Remove(place) => case.remove(*place).map(|_| Reply::Done),
        Call::Retarget(target) => case.retarget(*target).map(|_| Reply::Done),
        Call::Insert(place) => case.insert(*place).map(|_| Reply::Done),
        Call::Begin(scale) => case.begin(*scale).map(Reply::InState),
        Call::Delay(units) => case.delay(*units).map(Reply::InState),
        Call::Fire(place, value) => case.fire(*place, *value).map(Reply::InState),
        Call::Judge(abstraction, table, top) => case
            .judge(*abstraction, *table, *top, scratch, listing)
            .map(|_| Reply::Done),
        Call::Ask => Ok(Reply::Stands(case.standing())),
    }
}

// Makes the calls in order and notes their replies.
fn play<A: Abstraction>(
    case: &mut Case,
    turns: &mut [Turn<A>],
    scratch: &mut [u8],
    listing: &mut Listing<A::Shape>,
)
    ensures played { Played (AllCarry A.Abstraction.answers A.Abstraction.meaning (calls_of turns.old)) (view case.old) (notes_of A.Abstraction.answers (length scratch.old) turns.new) (view case.new) }
    ensures same { calls_of turns.new ≡ calls_of turns.old }
    ensures room { length scratch.new ≡ length scratch.old }
{
    for t in turns.iter_mut() {
        t.reply = Some(make(case, &t.call, scratch, listing));
    }
}

// A list of calls in segments, each segment with an abstraction of its own.
pub trait Calls: Sized {
    // every abstraction that is brought covers
    ghost covering: { Self → Type 0 };

    // the calls with their replies
    ghost notes: { Self → List Noted };

    // Makes the calls in order, and gives them back with their replies. By value: a proof of `Then` does not
    // close where one &mut self lends on its three parts.
    fn make(self, case: &mut Case) -> Self
        ensures played { Played (covering self) (view case.old) (notes result) (view case.new) }
        ensures same { events (notes result) ≡ events (notes self) };
}

// The end of a list of calls.
#[derive(Drop)]
pub struct NoMore;

impl Calls for NoMore {
    ghost covering = { λ _. Unit {0} };

    ghost notes = { λ _. [] };

    fn make(self, case: &mut Case) -> NoMore {
        self
    }
}

// A segment of calls, with the scratch and the listing that its judgments use, and the rest.
#[derive(Drop)]
pub struct Then<'a, A: Abstraction, R: Calls> {
    pub turns: &'a mut [Turn<'a, A>],
    pub scratch: &'a mut [u8],
    pub listing: &'a mut Listing<A::Shape>,
    pub rest: R,
}

impl<'a, A: Abstraction, R: Calls> Calls for Then<'a, A, R> {
    ghost covering = { λ s. AllCarry A.Abstraction.answers A.Abstraction.meaning (calls_of s.turns.now) × R.Calls.covering s.rest };

    ghost notes = { λ s. notes_of A.Abstraction.answers (length s.scratch.now) s.turns.now ++ R.Calls.notes s.rest };

    fn make(self, case: &mut Case) -> Then<'a, A, R> {
        let Then {
            turns,
            scratch,
            listing,
            rest,
        } = self;
        play(case, turns, scratch, listing);
        let rest = rest.make(case);
        Then {
            turns,
            scratch,
            listing,
            rest,
        }
    }
}

// Makes the case new, then makes the calls in order, and gives them back with their replies.
pub fn attend<C: Calls>(case: &mut Case, calls: C) -> C
    ensures law { OverCalls (C.Calls.covering calls) (C.Calls.notes result) (view case.new) }
    ensures same { events (C.Calls.notes result) ≡ events (C.Calls.notes calls) }
{
    case.renew();
    calls.make(case)
}
