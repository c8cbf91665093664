// Each list of the regions is held against the regions of concrete frames: none is missing, and none is
// there that no frame gives. The concrete change is made at a finer scale, so that a new value finds
// room between any two fractions.

use super::concrete::{Frame, World, assigned, at, later, scaled};
use abstraction::{Abstraction, Interval, Listing, Lower, Upper};
use ranking::Region;
use region::Regions;
use std::alloc::{AllocError, Global};
use std::test::Fail;

#[derive(Clone, Copy)]
enum Change {
    Time,
    Test(u8),
    Assign(u8),
    Push,
}

fn world(clocks: u8, top: u8, scale: u16) -> World {
    World { clocks, top, scale }
}

// Whether the list holds what was found, which has each region once, and nothing else.
fn same(found: &[Region], listed: &[Region]) -> bool {
    found.iter().all(|region| listed.contains(region)) && found.len() == listed.len()
}

// Notes it once.
fn note<T: PartialEq + Copy>(found: &mut Vec<T>, item: T) -> Result<(), AllocError> {
    if !found.as_slice().contains(&item) {
        found.push(item)?;
    }
    Ok(())
}

// Whether a check passes on each frame of the world; it is told how many came before.
fn on_each_frame<F: FnMut(u32, &Frame) -> Result<bool, AllocError>>(
    w: World,
    mut check: F,
) -> Result<bool, AllocError>
    requires { F.IsAlwaysCallable check }
{
    let mut frame = [0u16; 9];
    // More than there are in any of the tests; a test that meets more fails.
    for k in 0..100_000u32 {
        if !check(k, &frame)? {
            return Ok(false);
        }
        let Some(next) = w.next(&frame) else {
            return Ok(true);
        };
        frame = next;
    }
    Ok(false)
}

// What a list is asked for.
#[derive(Clone, Copy)]
struct Question {
    world: World,
    change: Change,
    interval: Interval,
}

impl Question {
    // The frame that the change with this value leads to, at a finer scale, if there is one.
    fn changed(self, fine: World, frame: &Frame, value: u16) -> Option<Frame> {
        let lies = |value| fine.lies(self.interval, value);
        match self.change {
            Change::Time => Some(later(frame, value)),
            Change::Test(clock) if lies(at(frame, clock as usize)) => Some(*frame),
            Change::Assign(clock) if lies(value) => Some(assigned(frame, clock as usize, value)),
            Change::Push if lies(value) => Some(fine.pushed(frame, value)),
            _ => None,
        }
    }

    fn list(self, frame: &Frame, out: &mut Listing<Region>) {
        let regions = Regions::new();
        let scope = self.world.scope();
        let region = self.world.region(frame);
        let i = self.interval;
        match self.change {
            Change::Time => regions.time(scope, region, out),
            Change::Test(clock) => regions.test(scope, clock as u64, i, region, out),
            Change::Assign(clock) => regions.assign(scope, clock as u64, i, region, out),
            Change::Push => regions.push(scope, i, region, out),
        }
    }

    // Whether the list for a frame holds the regions that its changes lead to.
    fn agrees(
        self,
        frame: &Frame,
        out: &mut Listing<Region>,
        found: &mut Vec<Region>,
    ) -> Result<bool, AllocError> {
        let fine = self.world.finer(2);
        let start = scaled(frame, 2);
        found.clear();
        for value in 0..fine.limit() {
            if let Some(next) = self.changed(fine, &start, value) {
                note(found, fine.region(&next))?;
            }
        }
        self.list(frame, out);
        Ok(same(found.as_slice(), out.shapes()))
    }

    // The same for each frame of the world.
    fn all_agree(
        self,
        out: &mut Listing<Region>,
        found: &mut Vec<Region>,
    ) -> Result<bool, AllocError> {
        on_each_frame(self.world, |_, frame| self.agrees(frame, out, found))
    }
}

fn between(lower: Lower, upper: Upper) -> Interval {
    Interval { lower, upper }
}

// Intervals with their bounds in them and not, an empty one, and one without an upper bound.
fn intervals(top: u8) -> [Interval; 6] {
    [
        Interval::ANY,
        between(Lower::From(0), Upper::Upto(0)),
        between(Lower::Over(0), Upper::Upto(top)),
        between(Lower::Over(0), Upper::Under(top)),
        between(Lower::Over(top), Upper::Unbounded),
        between(Lower::From(top), Upper::Upto(0)),
    ]
}

// Whether the lists for a change agree with the concrete frames, for each of the intervals.
fn agree_on(
    heap: Global,
    world: World,
    change: Change,
    intervals: &[Interval],
) -> Result<bool, AllocError> {
    let mut out = Listing::new(heap)?;
    let mut found = Vec::new(heap);
    for interval in intervals {
        let question = Question {
            world,
            change,
            interval: *interval,
        };
        if !question.all_agree(&mut out, &mut found)? {
            return Ok(false);
        }
    }
    Ok(true)
}

fn agree_on_intervals(heap: Global, w: World, change: Change) -> Result<bool, AllocError> {
    agree_on(heap, w, change, &intervals(w.top))
}

fn agree_on_time(heap: Global, w: World) -> Result<bool, AllocError> {
    agree_on(heap, w, Change::Time, &[Interval::ANY])
}

// A region above, and one that comes of its pop.
#[derive(Clone, Copy, PartialEq)]
struct Pair {
    above: Region,
    popped: Region,
}

fn count(pairs: &[Pair], above: Region) -> usize {
    pairs.iter().filter(|pair| pair.above == above).count()
}

// Pops of the frames above that can stand on the frame below.
#[derive(Clone, Copy)]
struct Pops {
    world: World,
    below: Frame,
    interval: Interval,
}

impl Pops {
    fn finer(self, times: u16) -> Pops {
        Pops {
            world: self.world.finer(times),
            below: scaled(&self.below, times),
            ..self
        }
    }

    // Pops each frame above that has this age and any clock.
    fn gather_clocks(self, risen: &Frame, pairs: &mut Vec<Pair>) -> Result<(), AllocError> {
        let w = self.world;
        for clock in 0..w.limit() {
            let above = if w.clocks == 0 {
                *risen
            } else {
                assigned(risen, 0, clock)
            };
            let pair = Pair {
                above: w.region(&above),
                popped: w.region(&w.popped(&self.below, &above)),
            };
            note(pairs, pair)?;
            if w.clocks == 0 {
                return Ok(());
            }
        }
        Ok(())
    }

    // Pops each frame that stands on the one below, at any time, age and clock.
    fn gather(self, pairs: &mut Vec<Pair>) -> Result<(), AllocError> {
        let w = self.world;
        for elapsed in 0..w.limit() {
            let kept = later(&w.pushed(&self.below, 0), elapsed);
            for age in 0..w.limit() {
                if w.lies(self.interval, age) {
                    let risen = assigned(&kept, w.clocks as usize, age);
                    self.gather_clocks(&risen, pairs)?;
                }
            }
        }
        Ok(())
    }

    fn list(self, above: Region, out: &mut Listing<Region>) {
        let below = self.world.region(&self.below);
        Regions::new().pop(self.world.scope(), self.interval, below, above, out);
    }

    // Whether each list for the frame below and one above holds what was gathered, and nothing else.
    fn lists_gathered(self, out: &mut Listing<Region>, pairs: &[Pair]) -> bool {
        pairs.iter().all(|pair| {
            self.list(pair.above, out);
            out.shapes().contains(&pair.popped) && out.shapes().len() == count(pairs, pair.above)
        })
    }

    // Whether nothing is listed for regions above that do not stand on the frame below.
    fn lists_no_others(
        self,
        out: &mut Listing<Region>,
        pairs: &[Pair],
    ) -> Result<bool, AllocError> {
        on_each_frame(self.world, |_, frame| {
            let above = self.world.region(frame);
            if count(pairs, above) != 0 {
                return Ok(true);
            }
            self.list(above, out);
            Ok(out.shapes().len() == 0)
        })
    }

    fn agree(self, out: &mut Listing<Region>, pairs: &mut Vec<Pair>) -> Result<bool, AllocError> {
        pairs.clear();
        let times = 2 * (self.world.clocks as u16 + 2);
        self.finer(times).gather(pairs)?;
        Ok(
            self.lists_gathered(out, pairs.as_slice())
                && self.lists_no_others(out, pairs.as_slice())?,
        )
    }
}

// Pops on every frame of the world, or on one of so many.
fn all_pops_agree(
    heap: Global,
    world: World,
    interval: Interval,
    step: u32,
) -> Result<bool, AllocError> {
    let mut out = Listing::new(heap)?;
    let mut pairs = Vec::new(heap);
    on_each_frame(world, |k, frame| {
        if k.checked_rem(step) != Some(0) {
            return Ok(true);
        }
        let pops = Pops {
            world,
            below: *frame,
            interval,
        };
        pops.agree(&mut out, &mut pairs)
    })
}

#[test]
fn time_lists(rt: HostRuntime) -> Result<(), Fail> {
    for scale in 1..=6u16 {
        assert!(rt; agree_on_time(rt.alloc(), world(0, 0, scale))?);
        assert!(rt; agree_on_time(rt.alloc(), world(0, 1, scale))?);
        assert!(rt; agree_on_time(rt.alloc(), world(0, 2, scale))?);
    }
    assert!(rt; agree_on_time(rt.alloc(), world(1, 0, 3))?);
    assert!(rt; agree_on_time(rt.alloc(), world(1, 1, 2))?);
    assert!(rt; agree_on_time(rt.alloc(), world(2, 0, 2))?);
    assert!(rt; agree_on_time(rt.alloc(), world(3, 1, 1))?);
    Ok(())
}

#[test]
fn test_lists(rt: HostRuntime) -> Result<(), Fail> {
    assert!(rt; agree_on_intervals(rt.alloc(), world(1, 0, 2), Change::Test(0))?);
    assert!(rt; agree_on_intervals(rt.alloc(), world(1, 1, 2), Change::Test(0))?);
    assert!(rt; agree_on_intervals(rt.alloc(), world(3, 0, 1), Change::Test(2))?);
    Ok(())
}

#[test]
fn assign_lists(rt: HostRuntime) -> Result<(), Fail> {
    assert!(rt; agree_on_intervals(rt.alloc(), world(1, 0, 3), Change::Assign(0))?);
    assert!(rt; agree_on_intervals(rt.alloc(), world(1, 1, 2), Change::Assign(0))?);
    assert!(rt; agree_on_intervals(rt.alloc(), world(2, 0, 2), Change::Assign(1))?);
    assert!(rt; agree_on_intervals(rt.alloc(), world(3, 0, 1), Change::Assign(2))?);
    Ok(())
}

#[test]
fn push_lists(rt: HostRuntime) -> Result<(), Fail> {
    for scale in 1..=6u16 {
        assert!(rt; agree_on_intervals(rt.alloc(), world(0, 0, scale), Change::Push)?);
        assert!(rt; agree_on_intervals(rt.alloc(), world(0, 2, scale), Change::Push)?);
    }
    assert!(rt; agree_on_intervals(rt.alloc(), world(1, 0, 3), Change::Push)?);
    assert!(rt; agree_on_intervals(rt.alloc(), world(1, 1, 2), Change::Push)?);
    assert!(rt; agree_on_intervals(rt.alloc(), world(3, 0, 1), Change::Push)?);
    Ok(())
}

#[test]
fn pop_lists(rt: HostRuntime) -> Result<(), Fail> {
    assert!(rt; all_pops_agree(rt.alloc(), world(0, 0, 4), Interval::ANY, 1)?);
    for i in intervals(1) {
        assert!(rt; all_pops_agree(rt.alloc(), world(0, 1, 2), i, 1)?);
    }
    assert!(rt; all_pops_agree(rt.alloc(), world(0, 2, 2), Interval::ANY, 3)?);
    Ok(())
}

#[test]
fn pop_lists_of_one_clock(rt: HostRuntime) -> Result<(), Fail> {
    assert!(rt; all_pops_agree(rt.alloc(), world(1, 0, 2), Interval::ANY, 97)?);
    assert!(rt; all_pops_agree(rt.alloc(), world(1, 1, 1), Interval::ANY, 7)?);
    Ok(())
}

// Three clocks and an age with fractions of their own: with the elapsed time at 0, a new age has ten
// positions in each of 17 whole parts; a new clock has 18 beside eight other fractions.
#[test]
fn longest_lists(rt: HostRuntime) -> Result<(), Fail> {
    let mut out = Listing::new(rt.alloc())?;
    let question = |change| Question {
        world: world(3, 15, 10),
        change,
        interval: Interval::ANY,
    };
    let frame = [1, 2, 3, 4, 5, 6, 7, 8, 9];
    question(Change::Push).list(&frame, &mut out);
    assert_eq!(rt; out.shapes().len(), 170);
    question(Change::Assign(0)).list(&frame, &mut out);
    assert_eq!(rt; out.shapes().len(), 306);
    question(Change::Time).list(&[0, 1, 2, 3, 4, 5, 6, 7, 8], &mut out);
    assert_eq!(rt; out.shapes().len(), 306);
    Ok(())
}
