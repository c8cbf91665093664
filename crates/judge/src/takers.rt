// Which shapes the entries of a table take.

ghost use Rattle.std.specs.Prelude.{◌≡◌};
ghost use Rattle.judge.specs.Claims.{scope as scope_of};
ghost use Rattle.judge.specs.Judged.{takes as taking, taken as being_taken, all_taken};
ghost use Rattle.judge.specs.Judgings.{claim_of};

use super::entry::Entry;
use super::judging::Judging;
use super::want::Want;
use abstraction::{Abstraction, Scope};

impl<'j, A: Abstraction> Judging<'j, A> {
    // What the abstraction is asked for.
    pub(crate) fn scope(&self) -> Scope
        ensures { result ≡ scope_of (claim_of A.Abstraction.answers self.now) }
    {
        Scope {
            clocks: self.model.sizes().clocks as u64,
            top: self.top,
        }
    }

    fn takes(&self, w: Want, s: A::Shape, k: usize, e: &Entry<A::Shape>) -> bool
        ensures { result ≡ taking (claim_of A.Abstraction.answers self.now) w s k e.now }
    {
        w.fits(k, e) && self.abstraction.within(self.scope(), s, e.shape)
    }

    // Whether some wanted entry takes the shape. By a loop, since `any` takes longer.
    pub(crate) fn taken(&self, w: Want, s: A::Shape) -> bool
        ensures { result ≡ being_taken (claim_of A.Abstraction.answers self.now) w s }
    {
        for (k, e) in self.table.iter().enumerate() {
            if self.takes(w, s, k, e) {
                return true;
            }
        }
        false
    }

    // Whether each of the shapes is taken by some wanted entry. A search that a label leaves: the form that
    // the project asks for here.
    pub(crate) fn all_taken(&self, w: Want, shapes: &[A::Shape]) -> bool
        ensures { result ≡ all_taken (claim_of A.Abstraction.answers self.now) w shapes.now }
    {
        'search: for s in shapes {
            for (k, e) in self.table.iter().enumerate() {
                if self.takes(w, *s, k, e) {
                    continue 'search;
                }
            }
            return false;
        }
        true
    }
}
