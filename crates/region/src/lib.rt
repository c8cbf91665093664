#![tactic(auto)]

// Regions of the values of a frame: whole parts up to a ceiling and the order of the fractions. What
// comes of a region by time, tests, assignments, pushes and pops is listed, each region once.

ghost use Rattle.std.specs.Prelude.{◌≡◌, ℕ, ◌+◌, ◌<◌, ◌≤◌, min, Bool, true, ◌&&◌, List, [], ◌∷◌, ◌++◌, map, length, take, drop, slice_index_or, slice_set};
ghost use Rattle.abstraction.specs.Owes.{Covers};
ghost use Rattle.abstraction.specs.Room.{shapes as shapes_of};
ghost use Rattle.ranking.specs.Items.{none, clocks_of, places, with_items, ceiling as ceiling_of};
ghost use Rattle.ranking.specs.Lawful.{front};
ghost use Rattle.ranking.specs.Close.{closed as closed_up};
ghost use Rattle.ranking.specs.Rotation.{greatest};
ghost use Rattle.ranking.specs.Joined.{same_region};
ghost use Rattle.region.specs.Asked.{small as small_of, wholes_fit, all_empty, in_order, lawful as lawful_of, above as above_of, below as below_of, lies_in, asks as asking, pop_asks};
ghost use Rattle.region.specs.Listed.{start as start_of, rounds as rounds_of, rotations as rotations_of, spread as spread_of, placed as placed_of, placing, doubled, keys as keys_of, fill_keys, fill as fill_of, source, opened as opened_of};
ghost use Rattle.region.specs.Laws.{FramesOnce, ListsExactly, ListsNothing};
ghost use Rattle.region.specs.Regions.{regions, covering};
ghost use Rattle.region.specs.Owing.{lists_lawfully};

use abstraction::{Abstraction, Interval, Listing, Lower, Scope, Upper};
use merging::pops;
use ranking::{
    Item, Region, ceiling, clocks_in_use, closed, item_at, items_in_use, join, rounds, set_at,
    top_rank, turned,
};
use std::array::from_fn;

fn small(scope: Scope) -> bool
    ensures { result ≡ small_of scope }
{
    scope.clocks <= 3 && scope.top <= 15
}

// Whether a value with this whole part, with or without a fraction, keeps to the lower bound.
fn above(bound: Lower, item: Item) -> bool
    ensures { result ≡ above_of bound item }
{
    match bound {
        Lower::From(b) => b <= item.whole,
        Lower::Over(b) => b < item.whole || (item.whole == b && item.rank != 0),
    }
}

// Whether it keeps to the upper one.
fn below(bound: Upper, item: Item) -> bool
    ensures { result ≡ below_of bound item }
{
    match bound {
        Upper::Upto(b) => item.whole < b || (item.whole == b && item.rank == 0),
        Upper::Under(b) => item.whole < b,
        Upper::Unbounded => true,
    }
}

fn inside(interval: Interval, item: Item) -> bool
    ensures { result ≡ lies_in interval item }
{
    above(interval.lower, item) && below(interval.upper, item)
}

fn with_item(region: Region, place: usize, item: Item) -> Region
    ensures { result ≡ with_items (slice_set region.items place item) }
{
    let mut next = region;
    set_at(&mut next.items, place, item);
    next
}

fn double(item: Item) -> Item
    ensures { result ≡ doubled item }
{
    Item {
        whole: item.whole,
        rank: item.rank.saturating_mul(2),
    }
}

// A region at a scope.
#[derive(Clone, Copy)]
struct Scoped {
    scope: Scope,
    region: Region,
}

impl Scoped {
    // Whether each whole part is at most one above its ceiling.
    fn wholes_fit(self) -> bool
        ensures { result ≡ wholes_fit (ceiling_of self.scope) 0 (front (places self.scope) self.region) }
    {
        self.region.items[..items_in_use(self.scope)]
            .iter()
            .enumerate()
            .all(|(i, item)| item.whole <= ceiling(self.scope, i) + 1)
    }

    // Whether ranks have no gap: closing up changes nothing.
    fn gapless(self) -> bool
        ensures { result ≡ same_region (closed_up (places self.scope) self.region) self.region }
    {
        closed(self.scope, self.region) == self.region
    }

    // Whether places past the items in use are empty.
    fn rest_empty(self) -> bool
        ensures { result ≡ all_empty (drop (places self.scope) self.region.items) }
    {
        self.region
            .items
            .iter()
            .skip(items_in_use(self.scope))
            .all(|item| *item == Item::NONE)
    }

    fn in_order(self) -> bool
        ensures { result ≡ in_order self.scope self.region }
    {
        self.wholes_fit() && self.gapless() && self.rest_empty()
    }

    // Whether the region is one, for a scope within the limits.
    fn lawful(self) -> bool
        ensures { result ≡ lawful_of self.scope self.region }
    {
        small(self.scope) && self.in_order()
    }

    // The greatest rank in use; it is at most 9.
    fn most(self) -> u8
        ensures { result ≡ min (greatest (front (places self.scope) self.region)) 9 }
    {
        top_rank(&self.region.items[..items_in_use(self.scope)]).min(9)
    }

    // So many rotations come to each region that any come to.
    fn rounds(self) -> usize
        ensures { result ≡ rounds_of self.scope self.region }
    {
        rounds(self.scope, self.most())
    }

    fn list_rotations(self, out: &mut Listing<Region>)
        ensures { shapes_of out.new ≡ rotations_of self.scope self.region (shapes_of out.old) }
    {
        let turns = self.rounds();
        let mut next = self.region;
        for _ in 0..turns {
            join(out, next);
            next = turned(self.scope, next);
        }
    }

    // How many positions a new item has: at no fraction, at each rank, before, between and after them.
    fn positions(self) -> u8
        ensures { result ≡ keys_of self.scope self.region }
    {
        2 * self.most() + 2
    }

    // Twice each rank, so that a new one finds room between two.
    fn spread(self) -> Scoped
        ensures scope { result.scope ≡ self.scope }
        ensures region { result.region ≡ spread_of self.region }
    {
        Scoped {
            scope: self.scope,
            region: Region {
                items: self.region.items.map(double),
            },
        }
    }

    // The region with an item at a place, closed up.
    fn placed(self, place: usize, item: Item) -> Region
        ensures { result ≡ placed_of self.scope self.region place item }
    {
        closed(self.scope, with_item(self.region, place, item))
    }

    // The item of the frame above at a push: clocks and age are kept, the age is open, nothing has elapsed.
    fn opened_item(self, place: usize) -> Item
        ensures { result ≡ slice_index_or self.region.items (source (clocks_of self.scope) place) none }
    {
        let clocks = clocks_in_use(self.scope);
        if place < clocks {
            item_at(&self.region.items, place)
        } else if clocks < place && place < 2 * clocks + 2 {
            item_at(&self.region.items, place - (clocks + 1))
        } else {
            Item::NONE
        }
    }

    // The frame above at a push.
    fn opened(self) -> Scoped
        ensures scope { result.scope ≡ self.scope }
        ensures region { result.region ≡ opened_of (clocks_of self.scope) self.region }
    {
        Scoped {
            scope: self.scope,
            region: Region {
                items: from_fn(|i| self.opened_item(i)),
            },
        }
    }

    fn at(self, place: usize, interval: Interval) -> Filling
        ensures { result ≡ record { base = self; place = place; interval = interval } }
    {
        Filling {
            base: self,
            place,
            interval,
        }
    }
}

// A region, and a place of it that gets a new item of an interval.
#[derive(Clone, Copy)]
struct Filling {
    base: Scoped,
    place: usize,
    interval: Interval,
}

impl Filling {
    // Whether the question is about a lawful region, a clock that is there and bounds up to top.
    fn asks(self) -> bool
        ensures { result ≡ asking self.base.scope self.place self.interval self.base.region }
    {
        let scope = self.base.scope;
        self.base.lawful() && (self.place as u64) < scope.clocks && self.interval.fits(scope.top)
    }

    // Whether the item that is there lies in the interval.
    fn lies(self) -> bool
        ensures { result ≡ lies_in self.interval (slice_index_or self.base.region.items self.place none) }
    {
        inside(self.interval, item_at(&self.base.region.items, self.place))
    }

    fn list_placed(self, item: Item, out: &mut Listing<Region>)
        ensures { shapes_of out.new ≡ placing self.base.scope self.place self.interval self.base.region item (shapes_of out.old) }
    {
        if inside(self.interval, item) {
            join(out, self.base.placed(self.place, item));
        }
    }

    fn list_positions(self, keys: u8, whole: u8, out: &mut Listing<Region>)
        ensures { shapes_of out.new ≡ fill_keys self.base.scope self.place self.interval self.base.region keys whole (shapes_of out.old) }
    {
        for rank in 0..keys {
            self.list_placed(Item { whole, rank }, out);
        }
    }

    // Fills the place with every whole part and every position in the interval.
    fn fill(self, out: &mut Listing<Region>)
        ensures { shapes_of out.new ≡ fill_of self.base.scope self.place self.interval self.base.region (shapes_of out.old) }
    {
        let keys = self.base.positions();
        let apart = self.base.spread().at(self.place, self.interval);
        for whole in 0..ceiling(self.base.scope, self.place) + 2 {
            apart.list_positions(keys, whole, out);
        }
    }
}

// Whether the question is about lawful regions and bounds up to top, and the age above lies in them.
fn asks_pop(scope: Scope, interval: Interval, s: Region, u: Region) -> bool
    ensures { result ≡ pop_asks scope interval s u }
{
    Scoped { scope, region: s }.lawful()
        && Scoped { scope, region: u }.lawful()
        && interval.fits(scope.top)
        && inside(interval, item_at(&u.items, clocks_in_use(scope)))
}

// The abstraction by regions. A region is within another only where they are equal.
#[derive(Clone, Copy)]
pub struct Regions;

impl Regions {
    // The regions cover; each frame is in one region; each list holds what it should, each region once,
    // and a question that makes no sense is answered by the empty list.
    pub fn new() -> Regions
        ensures covers { Covers (regions result) (covering result) }
        ensures once { FramesOnce }
        ensures lists { ListsExactly }
        ensures nothing { ListsNothing }
    {
        Regions
    }
}

impl Abstraction for Regions {
    type Shape = Region;

    ghost answers = { regions };

    ghost meaning = { covering };

    ghost lists = { lists_lawfully };

    fn lawful(&self, scope: Scope, s: Region) -> bool {
        Scoped { scope, region: s }.lawful()
    }

    // The region of all values 0.
    fn start(&self, scope: Scope) -> Region {
        Region {
            items: [Item::NONE; 9],
        }
    }

    // Each region after zero or more rotations.
    fn time(&self, scope: Scope, s: Region, out: &mut Listing<Region>) {
        out.clear();
        let base = Scoped { scope, region: s };
        if base.lawful() {
            base.list_rotations(out);
        }
    }

    // The region itself, if its clock lies in the interval.
    fn test(&self, scope: Scope, clock: u64, i: Interval, s: Region, out: &mut Listing<Region>) {
        out.clear();
        let question = Scoped { scope, region: s }.at(clock as usize, i);
        if question.asks() && question.lies() {
            out.add(s);
        }
    }

    // Each region with any value of the interval at a clock.
    fn assign(&self, scope: Scope, clock: u64, i: Interval, s: Region, out: &mut Listing<Region>) {
        out.clear();
        let question = Scoped { scope, region: s }.at(clock as usize, i);
        if question.asks() {
            question.fill(out);
        }
    }

    // Each region of the frame above with any age of the interval.
    fn push(&self, scope: Scope, i: Interval, s: Region, out: &mut Listing<Region>) {
        out.clear();
        let base = Scoped { scope, region: s };
        if base.lawful() && i.fits(scope.top) {
            base.opened().at(clocks_in_use(scope), i).fill(out);
        }
    }

    // Each region that the frame below can come to when the one above is popped.
    fn pop(&self, scope: Scope, i: Interval, s: Region, u: Region, out: &mut Listing<Region>) {
        out.clear();
        if asks_pop(scope, i, s, u) {
            pops(scope, s, u, out);
        }
    }

    fn within(&self, scope: Scope, s: Region, t: Region) -> bool {
        s == t
    }
}

#[cfg(test)]
mod tests {
    use super::*;
    use std::test::Fail;

    fn ranked() -> Region {
        Region {
            items: [0, 1, 2, 3, 4, 5, 6, 7, 8].map(|rank| Item { whole: 0, rank }),
        }
    }

    // Nine values in order, the first of them whole: nine classes come to 17 whole parts, at them and
    // past them; a new clock has 18 positions beside the eight ranks, and a new age 8 beside three.
    #[test]
    fn longest_lists(rt: HostRuntime) -> Result<(), Fail> {
        let scope = Scope { clocks: 3, top: 15 };
        let mut out = Listing::new(rt.alloc())?;
        Regions.time(scope, ranked(), &mut out);
        assert_eq!(rt; out.shapes().len(), 306);
        Regions.assign(scope, 0, Interval::ANY, ranked(), &mut out);
        assert_eq!(rt; out.shapes().len(), 306);
        Regions.push(scope, Interval::ANY, ranked(), &mut out);
        assert_eq!(rt; out.shapes().len(), 136);
        Ok(())
    }

    // A clock with a fraction above, and kept values with one below: it comes before, at or after theirs.
    #[test]
    fn pop(rt: HostRuntime) -> Result<(), Fail> {
        let scope = Scope { clocks: 1, top: 1 };
        let zero = Interval {
            lower: Lower::From(0),
            upper: Upper::Upto(0),
        };
        let later = Item { whole: 0, rank: 1 };
        let below = Region {
            items: [
                Item::NONE,
                Item::NONE,
                later,
                later,
                later,
                Item::NONE,
                Item::NONE,
                Item::NONE,
                Item::NONE,
            ],
        };
        let above = Region {
            items: [
                later,
                Item::NONE,
                Item::NONE,
                Item::NONE,
                Item::NONE,
                Item::NONE,
                Item::NONE,
                Item::NONE,
                Item::NONE,
            ],
        };
        let mut out = Listing::new(rt.alloc())?;
        Regions.pop(scope, zero, below, above, &mut out);
        assert_eq!(rt; out.shapes().len(), 3);
        Regions.pop(scope, zero, above, below, &mut out);
        assert_eq!(rt; out.shapes().len(), 0);
        Ok(())
    }
}
