// One row of a table of summaries: a state with the label on top, what the abstraction says of the
// frame, and the place of the row at which the frame was opened.
#[derive(Clone, Copy)]
pub struct Entry<S> {
    pub root: u64,
    pub state: u64,
    pub label: u64,
    pub shape: S,
}
