// What a row of an object asks for.

use automaton::{Opening, RuleNumbers};

// A call on the case. Unlike a `Call` of the list of calls it borrows no abstraction, so rows are kept and
// copied. An object's head is its row 0, and its list has the rows from 1.
#[derive(Clone, Copy)]
pub enum Ask {
    Open(Opening),
    Add(RuleNumbers),
    Begin(u64),
    Delay(u64),
    Fire(u64, u64),
}
