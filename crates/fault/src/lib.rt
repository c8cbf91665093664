#![tactic(auto)]

// Every way in which the checker says no: which refusal, in which layer, at which place.

ghost use Rattle.std.specs.Prelude.{◌≡◌};
ghost use Rattle.fault.specs.Faults.{number as numbered, layer as layered};
ghost use Rattle.fault.specs.declared.Refusal.{Refusal};
ghost use Rattle.fault.specs.declared.Place.TheVariants.{Row};

// What was wrong, one variant for each refusal, in the order of their numbers.
#[derive(Clone, Copy, Debug, PartialEq, Eq)]
pub enum Refusal {
    SizeOutOfRange = 1,
    NoSuchState = 2,
    RuleTableFull = 3,
    RuleStateUnknown = 4,
    KindUnknown = 5,
    ArgumentUnfit = 6,
    BoundUnfit = 7,
    NoSuchRule = 8,
    ClocksFull = 9,
    NoSuchPlace = 10,
    ScaleOutOfRange = 11,
    NoRun = 12,
    ValueTooLarge = 13,
    OtherState = 14,
    OtherTop = 15,
    StackFull = 16,
    OutsideInterval = 17,
    TableUnfit = 18,
    EntryUnlawful = 19,
    FirstEntryUnfit = 20,
    EntryInTarget = 21,
    NotClosed = 22,
    NoToken = 23,
    OtherTokenDue = 24,
    NumberUnfit = 25,
}

// The part of the checker that refused.
#[derive(Clone, Copy, Debug, PartialEq, Eq)]
pub enum Layer {
    Text,
    Record,
    Case,
    Evidence,
}

// Where the fault lies: a byte of a text, a row of an object (its head is row 0, and so is a call outside of
// any object), or a place in a table. There 64 stands for no rule and 2048 for no entry: users and promises
// know a place by its three numbers, as its line has them.
#[derive(Clone, Copy, Debug, PartialEq, Eq)]
pub enum Place {
    Byte(u64),
    Row(u64),
    Table { entry: u64, rule: u64, above: u64 },
}

#[derive(Clone, Copy, Debug, PartialEq, Eq)]
pub struct Fault {
    pub refusal: Refusal,
    pub place: Place,
}

impl Refusal {
    // The number under which users know the refusal. No two refusals share one.
    pub fn number(self) -> u8
        ensures value { result ≡ numbered self }
        ensures apart { (other : Refusal) → numbered other ≡ result → other ≡ self }
    {
        self as u8
    }

    // The layer that refuses so.
    pub fn layer(self) -> Layer
        ensures { result ≡ layered self }
    {
        match self {
            Refusal::NoToken => Layer::Text,
            Refusal::OtherTokenDue | Refusal::NumberUnfit => Layer::Record,
            Refusal::TableUnfit
            | Refusal::EntryUnlawful
            | Refusal::FirstEntryUnfit
            | Refusal::EntryInTarget
            | Refusal::NotClosed => Layer::Evidence,
            _ => Layer::Case,
        }
    }
}

impl Fault {
    // A refusal of a call, outside of any row.
    pub fn of_call(refusal: Refusal) -> Fault
        ensures { result ≡ record { refusal = refusal; place = Row 0 } }
    {
        Fault {
            refusal,
            place: Place::Row(0),
        }
    }
}
