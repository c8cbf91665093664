// Whether a table is closed, and the first place at which it is not.

ghost use Rattle.std.specs.Prelude.{◌≡◌, ◌≤◌, not, length};
ghost use Rattle.std.specs.List.{position};
ghost use Rattle.std.specs.Result.{result_err};
ghost use Rattle.judge.specs.Judged.{place, time_closed, rule_closed, opens_by, opens as opening, return_closed, entry_fault, closure_fault};
ghost use Rattle.judge.specs.Judgings.{claim_of};
ghost use Rattle.judge.specs.Marks.{Rooted};

use super::entry::Entry;
use super::judging::Judging;
use super::want::{beside, roots};
use abstraction::{Abstraction, Listing};
use automaton::{Action, RULES, Rule};
use fault::Place;

pub(crate) const MOST_ENTRIES: usize = 2048;

// The place of an entry, of a rule at it, and of an entry above it. Where there is none, its limit
// stands, as users are told it.
pub(crate) fn at(entry: Option<usize>, rule: Option<usize>, above: Option<usize>) -> Place
    ensures { result ≡ place entry rule above }
{
    Place::Table {
        entry: entry.unwrap_or(MOST_ENTRIES) as u64,
        rule: rule.unwrap_or(RULES) as u64,
        above: above.unwrap_or(MOST_ENTRIES) as u64,
    }
}

impl<'j, A: Abstraction> Judging<'j, A> {
    fn time_closed(&self, e: Entry<A::Shape>, listing: &mut Listing<A::Shape>) -> bool
        ensures { result ≡ time_closed (claim_of A.Abstraction.answers self.now) e }
    {
        self.abstraction.time(self.scope(), e.shape, listing);
        self.all_taken(beside(e, e.state), listing.shapes())
    }

    // Whether the shapes that e comes to by a rule of kinds 0 to 3 are taken.
    fn rule_closed(&self, e: Entry<A::Shape>, r: Rule, listing: &mut Listing<A::Shape>) -> bool
        ensures { result ≡ rule_closed (claim_of A.Abstraction.answers self.now) e r }
    {
        if r.from as u64 != e.state {
            return true;
        }
        let (scope, to) = (self.scope(), r.to as u64);
        match r.action {
            Action::Move => self.taken(beside(e, to), e.shape),
            Action::Test(clock) => {
                self.abstraction
                    .test(scope, clock as u64, r.interval, e.shape, listing);
                self.all_taken(beside(e, to), listing.shapes())
            }
            Action::Assign(clock) => {
                self.abstraction
                    .assign(scope, clock as u64, r.interval, e.shape, listing);
                self.all_taken(beside(e, to), listing.shapes())
            }
            Action::Push(label) => {
                self.abstraction.push(scope, r.interval, e.shape, listing);
                self.all_taken(roots(to, label as u64), listing.shapes())
            }
            Action::Pop(_) => true,
        }
    }

    // The first rule of kinds 0 to 3 by which e is not closed.
    fn open_rule(&self, e: Entry<A::Shape>, listing: &mut Listing<A::Shape>) -> Option<usize>
        ensures { result ≡ position (λ r. not (rule_closed (claim_of A.Abstraction.answers self.now) e r)) (claim_of A.Abstraction.answers self.now).automaton.rules }
    {
        self.rules
            .iter()
            .position(|r| !self.rule_closed(e, *r, listing))
    }

    // Whether the rule is a push from e that comes to o.
    fn opens_by(
        &self,
        e: Entry<A::Shape>,
        o: Entry<A::Shape>,
        r: Rule,
        listing: &mut Listing<A::Shape>,
    ) -> bool
        ensures { result ≡ opens_by (claim_of A.Abstraction.answers self.now) e o r }
    {
        // Asked first, since most rules leave another state.
        if r.from as u64 != e.state {
            return false;
        }
        match r.action {
            Action::Push(label) if r.to as u64 == o.state && label as u64 == o.label => {
                self.abstraction
                    .push(self.scope(), r.interval, e.shape, listing);
                listing
                    .shapes()
                    .iter()
                    .any(|s| self.abstraction.within(self.scope(), *s, o.shape))
            }
            _ => false,
        }
    }

    // Whether e opens the root o. Asked for each two entries, so by a loop: `any` takes longer.
    fn opens(&self, e: Entry<A::Shape>, o: Entry<A::Shape>, listing: &mut Listing<A::Shape>) -> bool
        ensures { result ≡ opening (claim_of A.Abstraction.answers self.now) e o }
    {
        for r in self.rules {
            if self.opens_by(e, o, *r, listing) {
                return true;
            }
        }
        false
    }

    // Whether the shapes that a pop from u by the rule leaves on e are taken.
    fn return_closed(
        &self,
        e: Entry<A::Shape>,
        u: Entry<A::Shape>,
        r: Rule,
        listing: &mut Listing<A::Shape>,
    ) -> bool
        ensures { result ≡ return_closed (claim_of A.Abstraction.answers self.now) e u r }
    {
        if r.from as u64 != u.state {
            return true;
        }
        match r.action {
            Action::Pop(label) if label as u64 == u.label => {
                self.abstraction
                    .pop(self.scope(), r.interval, e.shape, u.shape, listing);
                self.all_taken(beside(e, r.to as u64), listing.shapes())
            }
            _ => true,
        }
    }

    // The first pop rule by which e is not closed under u. By a loop, since `position` takes longer.
    fn open_pop(
        &self,
        e: Entry<A::Shape>,
        u: Entry<A::Shape>,
        listing: &mut Listing<A::Shape>,
    ) -> Option<usize>
        ensures { result ≡ position (λ r. not (return_closed (claim_of A.Abstraction.answers self.now) e u r)) (claim_of A.Abstraction.answers self.now).automaton.rules }
    {
        for (n, r) in self.rules.iter().enumerate() {
            if !self.return_closed(e, u, *r, listing) {
                return Some(n);
            }
        }
        None
    }

    // Whether the entry at k is closed, or the first place at which it is not. Pops are looked at
    // under each entry whose root e opens; the marks tell which entries those are.
    // Marks and listing stay two parameters: callers lend both, and most methods take the listing alone.
    fn entry_closed(
        &self,
        k: usize,
        e: Entry<A::Shape>,
        marks: &mut [u8],
        listing: &mut Listing<A::Shape>,
    ) -> Result<(), Place>
        requires { (Rooted self.now.table.now) × (length self.now.table.now ≤ length marks.old) }
        ensures { result_err result ≡ entry_fault (claim_of A.Abstraction.answers self.now) k e }
    {
        if !self.time_closed(e, listing) {
            return Err(at(Some(k), None, None));
        }
        if let Some(n) = self.open_rule(e, listing) {
            return Err(at(Some(k), Some(n), None));
        }
        // By index: of marks that a zip lends, a proof knows no element afterwards. Callers lend bytes, so
        // a mark is one.
        for (i, o) in self.table.iter().enumerate() {
            marks[i] = self.opens(e, *o, listing) as u8;
        }
        for (j, u) in self.table.iter().enumerate() {
            let opened = marks[u.root as usize] == 1;
            if opened && let Some(n) = self.open_pop(e, *u, listing) {
                return Err(at(Some(k), Some(n), Some(j)));
            }
        }
        Ok(())
    }

    // Whether the table is closed, or the first place at which it is not.
    pub(crate) fn closed(
        &self,
        marks: &mut [u8],
        listing: &mut Listing<A::Shape>,
    ) -> Result<(), Place>
        requires { (Rooted self.now.table.now) × (length self.now.table.now ≤ length marks.old) }
        ensures { result_err result ≡ closure_fault (claim_of A.Abstraction.answers self.now) }
    {
        for (k, e) in self.table.iter().enumerate() {
            self.entry_closed(k, *e, marks, listing)?;
        }
        Ok(())
    }
}
