// Whether a table is lawful, and the verdict.

ghost use Rattle.std.specs.Prelude.{◌≡◌, not, ◌==◌, length};
ghost use Rattle.std.specs.List.{position};
ghost use Rattle.fault.specs.Faults.{outcome};
ghost use Rattle.judge.specs.Judged.{action_fits, rules_fit, sizes_fit, entry_lawful, begins, table_begins, judged};
ghost use Rattle.judge.specs.Judgings.{claim_of};

use super::closure::{MOST_ENTRIES, at};
use super::entry::Entry;
use super::judging::Judging;
use abstraction::{Abstraction, Listing};
use automaton::{Action, Rule};
use fault::{Fault, Refusal};

const GREATEST_TOP: u64 = 15;

impl<'j, A: Abstraction> Judging<'j, A> {
    // Whether top is not below a finite bound of the rule; a move has none.
    fn rule_fits(&self, r: Rule) -> bool
        ensures { result ≡ action_fits (claim_of A.Abstraction.answers self.now) r.interval r.action }
    {
        match r.action {
            Action::Move => true,
            _ => r.interval.fits(self.top),
        }
    }

    fn rules_fit(&self) -> bool
        ensures { result ≡ rules_fit (claim_of A.Abstraction.answers self.now) }
    {
        self.model.rules().iter().all(|r| self.rule_fits(*r))
    }

    // Whether the lengths of the table and of the scratch and the top suit.
    fn sizes_fit(&self, scratch: usize) -> bool
        ensures { result ≡ sizes_fit (claim_of A.Abstraction.answers self.now) scratch }
    {
        let entries = self.table.len();
        1 <= entries
            && entries <= MOST_ENTRIES
            && entries <= scratch
            && self.top <= GREATEST_TOP
            && self.rules_fit()
    }

    fn entry_lawful(&self, e: Entry<A::Shape>) -> bool
        ensures { result ≡ entry_lawful (claim_of A.Abstraction.answers self.now) e }
    {
        let sizes = self.model.sizes();
        self.table
            .get(e.root as usize)
            .is_some_and(|root| root.root == e.root && root.label == e.label)
            && e.state < sizes.states as u64
            && e.label <= sizes.labels as u64
            && self.abstraction.lawful(self.scope(), e.shape)
    }

    // The place of the first entry that is not lawful.
    fn unlawful(&self) -> Option<usize>
        ensures { result ≡ position (λ e. not (entry_lawful (claim_of A.Abstraction.answers self.now) e)) self.now.table.now }
    {
        self.table.iter().position(|e| !self.entry_lawful(*e))
    }

    // Whether the entry is a root in the start state on the empty stack, and takes the start shape.
    fn begins(&self, e: &Entry<A::Shape>) -> bool
        ensures { result ≡ begins (claim_of A.Abstraction.answers self.now) e.now }
    {
        let start = self.abstraction.start(self.scope());
        e.root == 0
            && e.state == self.model.start() as u64
            && e.label == 0
            && self.abstraction.within(self.scope(), start, e.shape)
    }

    // Whether entry 0 is such a root.
    fn table_begins(&self) -> bool
        ensures { result ≡ table_begins (claim_of A.Abstraction.answers self.now) self.now.table.now }
    {
        match self.table {
            [e, ..] => self.begins(e),
            [] => false,
        }
    }

    // The place of the first entry in the target.
    fn in_target(&self) -> Option<usize>
        ensures { result ≡ position (λ e. e.state == (claim_of A.Abstraction.answers self.now).automaton.target) self.now.table.now }
    {
        let target = self.model.target() as u64;
        self.table.iter().position(|e| e.state == target)
    }

    // Accepted, or refused at the first place at fault.
    pub(crate) fn verdict(
        &self,
        scratch: &mut [u8],
        listing: &mut Listing<A::Shape>,
    ) -> Result<(), Fault>
        ensures { outcome result ≡ judged (claim_of A.Abstraction.answers self.now) (length scratch.old) }
    {
        let (refusal, place) = if !self.sizes_fit(scratch.len()) {
            (Refusal::TableUnfit, at(None, None, None))
        } else if let Some(k) = self.unlawful() {
            (Refusal::EntryUnlawful, at(Some(k), None, None))
        } else if !self.table_begins() {
            (Refusal::FirstEntryUnfit, at(Some(0), None, None))
        } else if let Some(k) = self.in_target() {
            (Refusal::EntryInTarget, at(Some(k), None, None))
        } else if let Err(place) = self.closed(scratch, listing) {
            (Refusal::NotClosed, place)
        } else {
            return Ok(());
        };
        Err(Fault { refusal, place })
    }
}
