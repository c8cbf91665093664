#![tactic(auto)]

// The pop of two regions: the frame above is taken away, and the frame below goes on.

ghost use Rattle.std.specs.Prelude.{◌≡◌, ◌+◌, ◌<◌, ◌≤◌, ◌&&◌, map, length, slice_index, slice_index_or, slice_set};
ghost use Rattle.std.specs.List.{list_all};
ghost use Rattle.abstraction.specs.Room.{shapes as shapes_of};
ghost use Rattle.ranking.specs.Items.{none, with_items, clocks_of, each, places};
ghost use Rattle.merging.specs.Ways.{rank_on, alone, together, keys_on, on, mergings};
ghost use Rattle.merging.specs.Pop.{mark_item, marked as marked_of, ties_of, shared, like as likeness, in_order, agrees, part as part_of, frame_of, join_all, finished, rekeyed, with_keys, merged, here, rounds as rounds_of, tried, pops as popping};
ghost use Rattle.merging.specs.Law.{PopLaw};

use abstraction::{Listing, Scope};
use ranking::{
    Item, Region, clocks_in_use, closed, item_at, items_in_use, join, rotate, rounds, set_at,
    top_rank,
};
use std::array;

// The frame below is on the left, the one above on the right.
#[derive(Clone, Copy)]
enum Side {
    Left,
    Right,
}

// An item that both frames have, as each of them sees it.
#[derive(Clone, Copy)]
struct Tie {
    left: Item,
    right: Item,
}

impl Tie {
    fn rank(self, side: Side) -> u8
        ensures { result ≡ rank_on side self }
    {
        match side {
            Side::Left => self.left.rank,
            Side::Right => self.right.rank,
        }
    }

    // Whether both sides have the same whole part, and a fraction on both or on none.
    fn is_alike(self) -> bool
        ensures { result ≡ likeness self }
    {
        self.left.whole == self.right.whole && (self.left.rank == 0) == (self.right.rank == 0)
    }

    // Whether two items' fractions are in the same order on both sides.
    fn is_ordered(self, other: Tie) -> bool
        ensures { result ≡ in_order self other }
    {
        (self.left.rank <= other.left.rank) == (self.right.rank <= other.right.rank)
    }
}

// Whether no item in common has this rank on that side.
fn alone(ties: &[Tie], side: Side, rank: u8) -> bool
    ensures { result ≡ alone (rank_on side) rank ties.now }
{
    ties.iter().all(|tie| tie.rank(side) != rank)
}

// Whether the items in common of the one rank are those of the other.
fn meet(ties: &[Tie], left: u8, right: u8) -> bool
    ensures { result ≡ together left right ties.now }
{
    ties.iter()
        .all(|tie| (tie.left.rank == left) == (tie.right.rank == right))
}

// Whether an item's fraction is to the others' on one side as on the other.
fn ordered(tie: Tie, ties: &[Tie]) -> bool
    ensures { result ≡ list_all (in_order tie) ties.now }
{
    ties.iter().all(|other| tie.is_ordered(*other))
}

// Whether an item in common is the same on both sides.
fn fits(tie: Tie, ties: &[Tie]) -> bool
    ensures { result ≡ (likeness tie && list_all (in_order tie) ties.now) }
{
    tie.is_alike() && ordered(tie, ties)
}

fn agree(ties: &[Tie]) -> bool
    ensures { result ≡ agrees ties.now }
{
    ties.iter().all(|tie| fits(*tie, ties))
}

// The place of each rank of the two sides in a merged order; memory is fixed, and no call allocates.
#[derive(Clone, Copy)]
struct Keys {
    left: [u8; 11],
    right: [u8; 11],
}

impl Keys {
    fn of(self, side: Side, rank: u8) -> u8
        ensures { result ≡ slice_index (keys_on side self) rank }
    {
        let keys = match side {
            Side::Left => self.left,
            Side::Right => self.right,
        };
        keys.get(rank as usize).copied().unwrap_or(0)
    }

    fn with(self, side: Side, rank: u8, key: u8) -> Keys
        ensures { result ≡ on side rank key self }
    {
        let mut next = self;
        match side {
            Side::Left => set_at(&mut next.left, rank as usize, key),
            Side::Right => set_at(&mut next.right, rank as usize, key),
        }
        next
    }
}

// A merged region in the making: its items with their ranks, and the places of the ranks so far.
#[derive(Clone, Copy)]
struct Draft {
    scope: Scope,
    frame: Region,
    keys: Keys,
}

impl Draft {
    fn with(self, side: Side, rank: u8, key: u8) -> Draft
        ensures { result ≡ with_keys self (on side rank key self.keys) }
    {
        Draft {
            keys: self.keys.with(side, rank, key),
            ..self
        }
    }

    // An item with its place in the merged order as its rank; the clocks are on the right side.
    fn rekey(self, place: usize, item: Item) -> Item
        ensures { result ≡ rekeyed (clocks_of self.scope) self.keys place item }
    {
        let side = if place < clocks_in_use(self.scope) {
            Side::Right
        } else {
            Side::Left
        };
        Item {
            whole: item.whole,
            rank: self.keys.of(side, item.rank),
        }
    }

    fn rekey_all(self) -> Region
        ensures { result ≡ with_items (each (rekeyed (clocks_of self.scope) self.keys) 0 self.frame.items) }
    {
        Region {
            items: array::from_fn(|i| self.rekey(i, self.frame.items[i])),
        }
    }

    // The merged region, its ranks closed up.
    fn finish(self) -> Region
        ensures { result ≡ finished self.scope self.frame self.keys }
    {
        closed(self.scope, self.rekey_all())
    }
}

// Lists each merging of the two orders of ranks that are left.
fn merge(ties: &[Tie], left: &[u8], right: &[u8], key: u8, draft: Draft, out: &mut Listing<Region>)
    requires { key + length left.now + length right.now < 255 }
    ensures { shapes_of out.new ≡ join_all (shapes_of out.old) (map (finished draft.scope draft.frame) (mergings ties.now left.now right.now key draft.keys)) }
{
    match (left.split_first(), right.split_first()) {
        (None, None) => join(out, draft.finish()),
        (Some((l, ls)), None) => {
            if alone(ties, Side::Left, *l) {
                let next = draft.with(Side::Left, *l, key + 1);
                merge(ties, ls, right, key + 1, next, out);
            }
        }
        (None, Some((r, rs))) => {
            if alone(ties, Side::Right, *r) {
                let next = draft.with(Side::Right, *r, key + 1);
                merge(ties, left, rs, key + 1, next, out);
            }
        }
        (Some((l, ls)), Some((r, rs))) => {
            if alone(ties, Side::Left, *l) {
                let next = draft.with(Side::Left, *l, key + 1);
                merge(ties, ls, right, key + 1, next, out);
            }
            if alone(ties, Side::Right, *r) {
                let next = draft.with(Side::Right, *r, key + 1);
                merge(ties, left, rs, key + 1, next, out);
            }
            if meet(ties, *l, *r) {
                let one = draft.with(Side::Left, *l, key + 1);
                let both = one.with(Side::Right, *r, key + 1);
                merge(ties, ls, rs, key + 1, both, out);
            }
        }
    }
}

// The item at a place of the frame below with a mark, of no whole part and no fraction, after its age.
fn mark_at(items: &[Item], clocks: usize, i: usize) -> Item
    requires { clocks ≤ 3 }
    ensures { result ≡ mark_item clocks items.now i }
{
    if i < clocks + 1 {
        item_at(items, i)
    } else if i == clocks + 1 {
        Item::NONE
    } else {
        item_at(items, i - 1)
    }
}

fn marked(items: &[Item], clocks: usize) -> [Item; 10]
    requires { clocks ≤ 3 }
    ensures { result ≡ marked_of clocks items.now }
{
    array::from_fn(|i| mark_at(items, clocks, i))
}

// The item at a place of the frame after the pop, with its rank on its own side.
fn part(below: &[Item], above: &[Item], clocks: usize, i: usize) -> Item
    requires { i < 9 }
    ensures { result ≡ part_of clocks below.now above.now i }
{
    if i < clocks {
        item_at(above, i)
    } else if i == clocks {
        item_at(below, i)
    } else {
        item_at(below, i + 1)
    }
}

fn tie_all(below: &[Item], above: &[Item]) -> [Tie; 5]
    ensures { result ≡ ties_of below.now above.now }
{
    array::from_fn(|i| Tie {
        left: item_at(below, i),
        right: item_at(above, i),
    })
}

// The items in use of two frames; those below have a mark after the age.
#[derive(Drop)]
struct Frames<'a> {
    scope: Scope,
    below: &'a [Item],
    above: &'a [Item],
    ghost long_below: { length below.now ≡ places scope + 1 },
    ghost long_above: { length above.now ≡ places scope },
}

impl Frames<'_> {
    // The items that both frames have; there are at most five.
    fn ties(&self) -> [Tie; 5]
        ensures { result ≡ shared (clocks_of self.now.scope) self.now.below.now self.now.above.now }
    {
        let clocks = clocks_in_use(self.scope);
        tie_all(&self.below[..clocks + 2], &self.above[clocks + 1..])
    }

    // The frame after the pop, each item with its rank on its own side.
    fn left_over(&self) -> Region
        ensures { result ≡ frame_of (clocks_of self.now.scope) self.now.below.now self.now.above.now }
    {
        let clocks = clocks_in_use(self.scope);
        Region {
            items: array::from_fn(|i| part(self.below, self.above, clocks, i)),
        }
    }

    // Lists every merging of the frames, which agree.
    fn list_merged(&self, ties: &[Tie], out: &mut Listing<Region>)
        ensures { shapes_of out.new ≡ join_all (shapes_of out.old) (merged self.now.scope ties.now self.now.below.now self.now.above.now) }
    {
        let ranks = [1, 2, 3, 4, 5, 6, 7, 8, 9, 10];
        let left = top_rank(self.below).min(10) as usize;
        let right = top_rank(self.above).min(10) as usize;
        let keys = Keys {
            left: [0; 11],
            right: [0; 11],
        };
        let draft = Draft {
            scope: self.scope,
            frame: self.left_over(),
            keys,
        };
        merge(ties, &ranks[0..left], &ranks[0..right], 0, draft, out);
    }

    // Lists the mergings of the frames, if they agree.
    fn list(&self, out: &mut Listing<Region>)
        ensures { shapes_of out.new ≡ join_all (shapes_of out.old) (here self.now.scope self.now.below.now self.now.above.now) }
    {
        let ties = self.ties();
        if agree(&ties) {
            self.list_merged(&ties, out);
        }
    }
}

// Lists the mergings after each number of rotations of the frame below.
fn try_rotations(
    scope: Scope,
    rounds: usize,
    below: &mut [Item],
    above: &[Item],
    out: &mut Listing<Region>,
)
    requires { (length below.old ≡ places scope + 1) × (length above.now ≡ places scope) }
    ensures { shapes_of out.new ≡ tried rounds scope below.old above.now (shapes_of out.old) }
{
    for _ in 0..rounds {
        let frames = Frames {
            scope,
            below: &*below,
            above,
        };
        frames.list(out);
        rotate(below, scope);
    }
}

// Lists each region that the frame below, `s`, can come to when the frame above, `u`, is popped.
pub fn pops(scope: Scope, s: Region, u: Region, out: &mut Listing<Region>)
    ensures value { shapes_of out.new ≡ popping scope s u }
    ensures law { PopLaw scope s u (shapes_of out.new) }
{
    out.clear();
    let used = items_in_use(scope);
    let mut below = marked(&s.items, clocks_in_use(scope));
    let most = rounds(scope, top_rank(&below[0..used + 1]));
    try_rotations(scope, most, &mut below[0..used + 1], &u.items[0..used], out);
}

#[cfg(test)]
mod tests {
    use super::*;
    use std::test::Fail;

    // Ranking's tests have the same: two crates share no test code.
    fn item(whole: u8, rank: u8) -> Item {
        Item { whole, rank }
    }

    fn of_one_clock(a: Item, b: Item, c: Item, d: Item, e: Item) -> Region {
        Region {
            items: [
                a,
                b,
                c,
                d,
                e,
                Item::NONE,
                Item::NONE,
                Item::NONE,
                Item::NONE,
            ],
        }
    }

    #[test]
    fn a_clock_before_at_and_after_the_kept_values(rt: HostRuntime) -> Result<(), Fail> {
        let (whole, part) = (item(0, 0), item(0, 1));
        let s = of_one_clock(whole, whole, part, part, part);
        let u = of_one_clock(part, whole, whole, whole, whole);
        let mut out = Listing::new(rt.alloc())?;
        pops(Scope { clocks: 1, top: 1 }, s, u, &mut out);
        assert!(rt; out.shapes().len() == 3);
        let later = item(0, 2);
        assert!(rt;
            out.shapes()
                .contains(&of_one_clock(later, whole, part, part, part))
        );
        assert!(rt;
            out.shapes()
                .contains(&of_one_clock(part, whole, later, later, later))
        );
        assert!(rt;
            out.shapes()
                .contains(&of_one_clock(part, whole, part, part, part))
        );
        Ok(())
    }

    fn of_three_clocks(clocks: [Item; 3], age: Item, kept: [Item; 5]) -> Region {
        let [a, b, c] = clocks;
        let [d, e, f, g, h] = kept;
        Region {
            items: [a, b, c, age, d, e, f, g, h],
        }
    }

    // Five items below against three clocks and the next whole unit above, in every order: the
    // Delannoy number of 5 and 4.
    #[test]
    fn all_orders_of_three_clocks(rt: HostRuntime) -> Result<(), Fail> {
        let (old, part) = (item(16, 0), item(16, 4));
        let kept = [item(16, 1), item(16, 2), item(16, 3), part, item(16, 5)];
        let s = of_three_clocks([old, old, old], old, kept);
        let u = of_three_clocks([item(0, 1), item(0, 2), item(0, 3)], part, [part; 5]);
        let mut out = Listing::new(rt.alloc())?;
        pops(Scope { clocks: 3, top: 15 }, s, u, &mut out);
        assert!(rt; out.shapes().len() == 681);
        Ok(())
    }

    #[test]
    fn frames_that_do_not_agree(rt: HostRuntime) -> Result<(), Fail> {
        let (whole, part) = (item(0, 0), item(0, 1));
        let s = of_one_clock(whole, part, whole, whole, whole);
        let u = of_one_clock(part, whole, whole, whole, whole);
        let mut out = Listing::new(rt.alloc())?;
        pops(Scope { clocks: 1, top: 1 }, s, u, &mut out);
        assert!(rt; out.shapes().len() == 0);
        Ok(())
    }
}
