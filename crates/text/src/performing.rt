// The calls of an object, made on a case.

ghost use Rattle.std.specs.Prelude.{◌≡◌};
ghost use Rattle.fault.specs.Faults.{outcome};
ghost use Rattle.fault.specs.declared.Place.TheVariants.{Row};
ghost use Rattle.case.specs.Views.{view};
ghost use Rattle.text.specs.Calls.{asked, after, said_from, case_from};

use crate::asks::Ask;
use case::Case;
use fault::{Fault, Place};
use line::Answer;

fn make(case: &mut Case, ask: Ask) -> Result<(), Fault>
    ensures answer { outcome result ≡ asked ask (view case.old) }
    ensures after { view case.new ≡ after ask (view case.old) }
{
    match ask {
        Ask::Open(opening) => case.open(opening),
        Ask::Add(numbers) => case.add(numbers),
        Ask::Begin(scale) => case.begin(scale).map(|_| ()),
        Ask::Delay(units) => case.delay(units).map(|_| ()),
        Ask::Fire(rule, value) => case.fire(rule, value).map(|_| ()),
    }
}

// The fault with its row put in.
fn in_row(fault: Fault, row: u64) -> Fault
    ensures { result ≡ record { refusal = fault.refusal; place = Row row } }
{
    Fault {
        place: Place::Row(row),
        ..fault
    }
}

// Makes the calls in order. The first that is refused is answered with its row and ends them; what
// the calls before it did stays.
pub(crate) fn perform(case: &mut Case, asks: &[Ask]) -> Answer
    ensures answer { outcome result ≡ said_from 0 asks.now (view case.old) }
    ensures after { view case.new ≡ case_from asks.now (view case.old) }
{
    for (i, ask) in asks.iter().enumerate() {
        make(case, *ask).map_err(|fault| in_row(fault, i as u64))?;
    }
    Ok(case.standing())
}
