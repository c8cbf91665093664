// Evidence that the target is unreachable: a closed table.

ghost use Rattle.std.specs.Prelude.{◌≡◌, false, [], length, is_ok};
ghost use Rattle.fault.specs.Faults.{outcome};
ghost use Rattle.abstraction.specs.Room.{shapes as shapes_of};
ghost use Rattle.automaton.specs.Models.{automaton};
ghost use Rattle.judge.specs.Claims.{claim};
ghost use Rattle.judge.specs.Judged.{judged};
ghost use Rattle.judge.specs.Law.{Law, Sound};
ghost use Rattle.case.specs.Views.{view};
ghost use Rattle.case.specs.Calls.{judge_view};

use super::case::{Case, Standing};
use abstraction::{Abstraction, Listing};
use fault::Fault;
use judge::Entry;

impl Case {
    // Judges a table of summaries over an abstraction. An accepted table makes the case unreachable;
    // the run goes on.
    pub fn judge<A: Abstraction>(
        &mut self,
        abstraction: &A,
        table: &[Entry<A::Shape>],
        top: u64,
        scratch: &mut [u8],
        listing: &mut Listing<A::Shape>,
    ) -> Result<(), Fault>
        ensures answer { outcome result ≡ judged (claim (A.Abstraction.answers abstraction.now) (automaton self.old.model) top table.now) (length scratch.old) }
        ensures after { view self.new ≡ judge_view (outcome result) (view self.old) }
        ensures law { Law (claim (A.Abstraction.answers abstraction.now) (automaton self.old.model) top table.now) (length scratch.old) (outcome result) }
        ensures sound { Sound (claim (A.Abstraction.answers abstraction.now) (automaton self.old.model) top table.now) (A.Abstraction.meaning abstraction.now) (outcome result) }
        ensures kept { is_ok result ≡ false → self.new ≡ self.old }
        ensures room { length scratch.new ≡ length scratch.old }
        ensures emptied { shapes_of listing.new ≡ [] }
    {
        let verdict = judge::judge(&self.model, abstraction, table, top, scratch, listing);
        if verdict.is_ok() {
            self.standing = Standing::Unreachable;
        }
        verdict
    }
}
