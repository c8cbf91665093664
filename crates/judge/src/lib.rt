#![tactic(auto)]

// Closed tables of summaries over any abstraction: evidence that no run of a model reaches its target.

ghost use Rattle.std.specs.Prelude.{◌≡◌, [], length};
ghost use Rattle.fault.specs.Faults.{outcome};
ghost use Rattle.abstraction.specs.Room.{shapes as shapes_of};
ghost use Rattle.automaton.specs.Models.{automaton as automaton_of};
ghost use Rattle.judge.specs.Claims.{claim};
ghost use Rattle.judge.specs.Judged.{judged};
ghost use Rattle.judge.specs.Law.{Law, Sound};

use abstraction::{Abstraction, Listing};
use automaton::Model;
use fault::Fault;

mod closure;
mod entry;
mod judging;
mod lawful;
mod takers;
mod want;

pub use entry::Entry;
use judging::Judging;

// Whether the table keeps the target from all runs of the model, as far as the abstraction, asked
// for bounds up to top, can tell. The table is accepted exactly if it is lawful and closed, else
// refused at its first place at fault. An accepted table is evidence wherever the abstraction covers.
// The scratch has a byte or more for each entry; what it holds afterwards is left open.
pub fn judge<A: Abstraction>(
    model: &Model,
    abstraction: &A,
    table: &[Entry<A::Shape>],
    top: u64,
    scratch: &mut [u8],
    listing: &mut Listing<A::Shape>,
) -> Result<(), Fault>
    ensures answer { outcome result ≡ judged (claim (A.Abstraction.answers abstraction.now) (automaton_of model.now) top table.now) (length scratch.old) }
    ensures law { Law (claim (A.Abstraction.answers abstraction.now) (automaton_of model.now) top table.now) (length scratch.old) (outcome result) }
    ensures sound { Sound (claim (A.Abstraction.answers abstraction.now) (automaton_of model.now) top table.now) (A.Abstraction.meaning abstraction.now) (outcome result) }
    ensures room { length scratch.new ≡ length scratch.old }
    ensures emptied { shapes_of listing.new ≡ [] }
{
    let judging = Judging {
        model,
        abstraction,
        top,
        table,
        rules: model.rules(),
    };
    let verdict = judging.verdict(scratch, listing);
    listing.clear();
    verdict
}

#[cfg(test)]
mod tests;
