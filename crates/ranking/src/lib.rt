#![tactic(auto)]

// Items with whole parts and ranked fractions, and regions of them: their rotation, the closing up of
// their ranks, and lists that hold each region once.

ghost use Rattle.std.specs.Prelude.{◌≡◌, ◌≤◌, map, slice_index_or, slice_set, Decides};
ghost use Rattle.abstraction.specs.Room.{shapes as shapes_of};
ghost use Rattle.ranking.specs.Items.{none, clocks_of, places, ceiling as ceiling_of, rounds as rounds_of};
ghost use Rattle.ranking.specs.Close.{has_rank, next_rank, steps, shut_item, closed as closed_up};
ghost use Rattle.ranking.specs.Rotation.{has_zero, greatest, fallen, rotated, turned as turned_once};
ghost use Rattle.ranking.specs.Joined.{join as joined};
ghost use Rattle.ranking.specs.declared.Item.{Item};
ghost use Rattle.ranking.specs.declared.Region.{Region};

use abstraction::{Listing, Scope};

// A whole part, and the rank of the fraction: 0 for none, and from 1 on in the order of the fractions.
#[derive(Clone, Copy, PartialEq, Eq, Debug)]
pub struct Item {
    pub whole: u8,
    pub rank: u8,
}

impl Item {
    // No whole part and no fraction.
    pub const NONE: Item = Item { whole: 0, rank: 0 };
}

// The items of a frame: the clocks, the age, the kept clocks, the kept age and the time elapsed. Places
// past those hold no whole part and no fraction.
#[derive(Clone, Copy, Debug, PartialEq, Eq)]
pub struct Region {
    // Nine in place, so that a shape is copied and no call allocates.
    pub items: [Item; 9],
}

// How many clocks a scope has; of more than 3, 3 count.
pub fn clocks_in_use(scope: Scope) -> usize
    ensures value { result ≡ clocks_of scope }
    ensures few { result ≤ 3 }
{
    scope.clocks.min(3) as usize
}

// How many items a frame has.
pub fn items_in_use(scope: Scope) -> usize
    ensures value { result ≡ places scope }
    ensures few { result ≤ 9 }
{
    2 * clocks_in_use(scope) + 3
}

// The greatest whole part that is told apart at a place.
pub fn ceiling(scope: Scope, place: usize) -> u8
    ensures value { result ≡ ceiling_of scope place }
    ensures small { result ≤ 15 }
{
    scope.top.min(15) as u8
}

// The item at a place; past the end there is none.
pub fn item_at(items: &[Item], place: usize) -> Item
    ensures { result ≡ slice_index_or items.now place none }
{
    items.get(place).copied().unwrap_or(Item::NONE)
}

// Writes at a place; past the end nothing. Not by get_mut, after which a proof knows no element.
pub fn set_at<T: Copy>(items: &mut [T], place: usize, item: T)
    ensures { items.new ≡ slice_set items.old place item }
{
    if place < items.len() {
        items[place] = item;
    }
}

// After so many rotations of items with ranks up to `most` no new ones come.
pub fn rounds(scope: Scope, most: u8) -> usize
    ensures { result ≡ rounds_of scope most }
{
    2 * (most as usize + 1) * (ceiling(scope, 0) as usize + 2)
}

// Whether some item has no fraction.
fn some_whole(items: &[Item]) -> bool
    ensures { result ≡ has_zero items.now }
{
    items.iter().any(|item| item.rank == 0)
}

// The greatest rank.
pub fn top_rank(items: &[Item]) -> u8
    ensures { result ≡ greatest items.now }
{
    items.iter().map(|item| item.rank).max().unwrap_or(0)
}

// An item of the greatest rank comes to its next whole part.
fn lower(scope: Scope, most: u8, place: usize, item: Item) -> Item
    ensures { result ≡ fallen (ceiling_of scope) most place item }
{
    if item.rank == most {
        Item {
            whole: item.whole.saturating_add(1).min(ceiling(scope, place) + 1),
            rank: 0,
        }
    } else {
        item
    }
}

// If a rank is 0 every rank rises, else the items of greatest rank become whole.
pub fn rotate(items: &mut [Item], scope: Scope)
    ensures { items.new ≡ rotated (ceiling_of scope) items.old }
{
    if some_whole(items) {
        for item in items.iter_mut() {
            item.rank = item.rank.saturating_add(1);
        }
    } else {
        let most = top_rank(items);
        for (place, item) in items.iter_mut().enumerate() {
            *item = lower(scope, most, place, *item);
        }
    }
}

// The region with its items in use rotated.
pub fn turned(scope: Scope, region: Region) -> Region
    ensures { result ≡ turned_once (places scope) (ceiling_of scope) region }
{
    let used = items_in_use(scope);
    let mut next = region;
    rotate(&mut next.items[0..used], scope);
    next
}

// The least rank in use above a given one.
pub fn next_rank(items: &[Item], above: u8) -> Option<u8>
    ensures { result ≡ next_rank items.now above }
{
    items
        .iter()
        .map(|item| item.rank)
        .filter(|rank| *rank > above)
        .min()
}

// How many ranks from 1 to `rank` are in use. A filter over 1..=rank would look at each number.
fn ranks_to(items: &[Item], rank: u8) -> u8
    ensures { result ≡ steps (has_rank items.now) rank }
{
    let mut count = 0;
    let mut at = 0;
    while let Some(next) = next_rank(items, at) {
        if next > rank {
            return count;
        }
        count += 1;
        at = next;
    }
    count
}

// Closes up the ranks of the items among those of all.
fn close_each(items: &mut [Item], all: &[Item])
    ensures { items.new ≡ map (shut_item all.now) items.old }
{
    for item in items.iter_mut() {
        item.rank = ranks_to(all, item.rank);
    }
}

// The region with the ranks of its items in use closed up: same zeros, same order, no gap.
pub fn closed(scope: Scope, region: Region) -> Region
    ensures { result ≡ closed_up (places scope) region }
{
    let used = items_in_use(scope);
    let mut next = region;
    close_each(&mut next.items[0..used], &region.items[0..used]);
    next
}

// Lists a region unless it is listed. `==`, by which it is looked for, is equality of items and regions.
pub fn join(out: &mut Listing<Region>, region: Region)
    ensures after { shapes_of out.new ≡ joined (shapes_of out.old) region }
    ensures items { (a b : Item) → Decides (⟦<Item as PartialEq>⟧.eq a b) (a ≡ b) }
    ensures regions { (a b : Region) → Decides (⟦<Region as PartialEq>⟧.eq a b) (a ≡ b) }
{
    if !out.shapes().contains(&region) {
        out.add(region);
    }
}

#[cfg(test)]
mod tests {
    use super::*;

    // The tests of merging have the same: two crates share no test code.
    fn item(whole: u8, rank: u8) -> Item {
        Item { whole, rank }
    }

    // One clock at 1 and a half, an age between the half and 1, and the rest at 0.
    #[test]
    fn rotation(rt: HostRuntime) {
        let scope = Scope { clocks: 1, top: 1 };
        let mut items = [item(1, 1), item(0, 2), item(0, 0), item(0, 0), item(0, 0)];
        rotate(&mut items, scope);
        assert_eq!(rt;
            items,
            [item(1, 2), item(0, 3), item(0, 1), item(0, 1), item(0, 1)]
        );
        rotate(&mut items, scope);
        assert_eq!(rt;
            items,
            [item(1, 2), item(1, 0), item(0, 1), item(0, 1), item(0, 1)]
        );
    }

    // Past the ceiling the whole part stays, and the rank is kept.
    #[test]
    fn above_the_ceiling(rt: HostRuntime) {
        let scope = Scope { clocks: 0, top: 1 };
        let mut items = [item(2, 2), item(0, 1), item(2, 1)];
        rotate(&mut items, scope);
        assert_eq!(rt; items, [item(2, 0), item(0, 1), item(2, 1)]);
    }

    #[test]
    fn closing(rt: HostRuntime) {
        let scope = Scope { clocks: 0, top: 1 };
        let mut region = Region {
            items: [Item::NONE; 9],
        };
        region.items[0] = item(1, 5);
        region.items[1] = item(0, 2);
        region.items[2] = item(2, 5);
        assert_eq!(rt; next_rank(&region.items, 2), Some(5));
        assert_eq!(rt; next_rank(&region.items, 5), None);
        let next = closed(scope, region);
        assert_eq!(rt; next.items[0], item(1, 2));
        assert_eq!(rt; next.items[1], item(0, 1));
        assert_eq!(rt; next.items[2], item(2, 2));
    }
}
