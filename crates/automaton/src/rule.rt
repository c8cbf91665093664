// Rules, their actions and the symbols of the stack.

ghost use Rattle.std.specs.Prelude.{◌≡◌};
ghost use Rattle.automaton.specs.Rules.{numbers};

use abstraction::Interval;

#[derive(Clone, Copy)]
pub enum Action {
    Move,
    Test(u8),
    Assign(u8),
    Push(u8),
    Pop(u8),
}

#[derive(Clone, Copy)]
pub struct Rule {
    pub from: u8,
    pub to: u8,
    pub action: Action,
    pub interval: Interval,
}

// A label on the stack, and how old it is.
#[derive(Clone, Copy)]
pub struct Symbol {
    pub label: u8,
    pub age: u64,
}

// A rule as users write it: eight whole numbers, since public calls take all numbers.
#[derive(Clone, Copy)]
pub struct RuleNumbers {
    pub from: u64,
    pub to: u64,
    pub kind: u64,
    pub argument: u64,
    pub lower: u64,
    pub lower_flag: u64,
    pub upper: u64,
    pub upper_flag: u64,
}

impl From<[u64; 8]> for RuleNumbers {
    ghost from_gives = { λ row n. n ≡ numbers row };

    fn from(row: [u64; 8]) -> RuleNumbers
        ensures { result ≡ numbers row }
    {
        RuleNumbers {
            from: row[0],
            to: row[1],
            kind: row[2],
            argument: row[3],
            lower: row[4],
            lower_flag: row[5],
            upper: row[6],
            upper_flag: row[7],
        }
    }
}

// How many states, labels and clocks there are.
#[derive(Clone, Copy)]
pub struct Sizes {
    pub states: u8,
    pub labels: u8,
    pub clocks: u8,
}
