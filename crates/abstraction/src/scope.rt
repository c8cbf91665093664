// What a question to an abstraction is asked for: the number of clocks, and the greatest bound.
#[derive(Clone, Copy, Debug, PartialEq, Eq)]
pub struct Scope {
    pub clocks: u64,
    pub top: u64,
}
