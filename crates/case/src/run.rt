// Where the run of a case stands.

// The plain numbers of a run: its scale, its state and its clocks. The model says how many clocks are in
// use; room for three is fixed, and places past those in use are unused.
#[derive(Clone, Copy)]
pub struct Progress {
    pub(crate) scale: u32,
    pub(crate) state: u8,
    pub(crate) clocks: [u64; 3],
}
