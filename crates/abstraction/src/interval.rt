// Intervals of time with whole bounds.

// A lower bound: values from the number on, or only those over it.
#[derive(Clone, Copy, Debug, PartialEq, Eq)]
pub enum Lower {
    From(u8),
    Over(u8),
}

// An upper bound: values up to the number, or only those under it, or all.
#[derive(Clone, Copy, Debug, PartialEq, Eq)]
pub enum Upper {
    Upto(u8),
    Under(u8),
    Unbounded,
}

#[derive(Clone, Copy, Debug, PartialEq, Eq)]
pub struct Interval {
    pub lower: Lower,
    pub upper: Upper,
}
