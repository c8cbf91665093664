// Frames of concrete values at a scale, how they change, and which region each is in. Nothing here asks
// the regions: whole parts and ranks are counted.

use abstraction::{Interval, Lower, Scope, Upper};
use ranking::{Item, Region};
use std::array::from_fn;

// The values of a frame, in parts of 1 / scale: the clocks, the age, the kept clocks, the kept age and
// the time elapsed. Places past those are not in use.
pub(crate) type Frame = [u16; 9];

#[derive(Clone, Copy)]
pub(crate) struct World {
    pub(crate) clocks: u8,
    pub(crate) top: u8,
    pub(crate) scale: u16,
}

pub(crate) fn at(frame: &Frame, place: usize) -> u16 {
    frame.get(place).copied().unwrap_or(0)
}

impl World {
    pub(crate) fn scope(self) -> Scope {
        Scope {
            clocks: self.clocks as u64,
            top: self.top as u64,
        }
    }

    fn used(self) -> usize {
        2 * self.clocks as usize + 3
    }

    // From here on no whole part and no fraction is new.
    pub(crate) fn limit(self) -> u16 {
        (self.top as u16 + 2).wrapping_mul(self.scale)
    }

    pub(crate) fn finer(self, times: u16) -> World {
        World {
            scale: self.scale.wrapping_mul(times),
            ..self
        }
    }

    fn fraction(self, value: u16) -> u16 {
        value.checked_rem(self.scale).unwrap_or(0)
    }

    // The greatest bound of 1 to top + 1 that is reached.
    fn whole(self, value: u16) -> u8 {
        (1..=16u8)
            .rev()
            .find(|bound| {
                *bound as u16 <= self.top as u16 + 1
                    && (*bound as u16).wrapping_mul(self.scale) <= value
            })
            .unwrap_or(0)
    }

    fn has(self, frame: &Frame, fraction: u16) -> bool {
        frame
            .iter()
            .take(self.used())
            .any(|value| self.fraction(*value) == fraction)
    }

    // How many fractions the frame has above 0 and up to that of the value.
    fn rank(self, frame: &Frame, value: u16) -> u8 {
        (1..=self.fraction(value))
            .filter(|fraction| self.has(frame, *fraction))
            .fold(0u8, |count, _| count.wrapping_add(1))
    }

    pub(crate) fn region(self, frame: &Frame) -> Region {
        let mut items = [Item::NONE; 9];
        for (item, value) in items.iter_mut().zip(frame).take(self.used()) {
            *item = Item {
                whole: self.whole(*value),
                rank: self.rank(frame, *value),
            };
        }
        Region { items }
    }

    // Apart from `Interval::contains`, which the lists rest on.
    pub(crate) fn lies(self, interval: Interval, value: u16) -> bool {
        let above = match interval.lower {
            Lower::From(b) => (b as u16).wrapping_mul(self.scale) <= value,
            Lower::Over(b) => (b as u16).wrapping_mul(self.scale) < value,
        };
        above
            && match interval.upper {
                Upper::Upto(b) => value <= (b as u16).wrapping_mul(self.scale),
                Upper::Under(b) => value < (b as u16).wrapping_mul(self.scale),
                Upper::Unbounded => true,
            }
    }

    // The next frame of values below the limit, if there is one.
    pub(crate) fn next(self, frame: &Frame) -> Option<Frame> {
        let mut next = *frame;
        for value in next.iter_mut().take(self.used()) {
            *value = value.wrapping_add(1);
            if *value < self.limit() {
                return Some(next);
            }
            *value = 0;
        }
        None
    }

    // The frame above at a push.
    pub(crate) fn pushed(self, frame: &Frame, age: u16) -> Frame {
        let n = self.clocks as usize;
        from_fn(|i| {
            if i < n {
                at(frame, i)
            } else if i == n {
                age
            } else if i <= 2 * n + 1 {
                at(frame, i - n - 1)
            } else {
                0
            }
        })
    }

    // The frame below when the one above is popped.
    pub(crate) fn popped(self, below: &Frame, above: &Frame) -> Frame {
        let n = self.clocks as usize;
        let elapsed = at(above, 2 * n + 2);
        from_fn(|i| {
            if i < n {
                at(above, i)
            } else if i < self.used() {
                at(below, i).wrapping_add(elapsed)
            } else {
                0
            }
        })
    }
}

// Every value so many times as large.
pub(crate) fn scaled(frame: &Frame, times: u16) -> Frame {
    frame.map(|value| value.wrapping_mul(times))
}

// Every value later. Like `scaled` but for the operation, each a line of `map`.
pub(crate) fn later(frame: &Frame, units: u16) -> Frame {
    frame.map(|value| value.wrapping_add(units))
}

pub(crate) fn assigned(frame: &Frame, place: usize, value: u16) -> Frame {
    let mut next = *frame;
    if let Some(slot) = next.get_mut(place) {
        *slot = value;
    }
    next
}
