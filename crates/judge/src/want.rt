// Which entries of a table may take a shape.

ghost use Rattle.std.specs.Prelude.{◌≡◌};
ghost use Rattle.judge.specs.Judged.{wanted, beside as besides, roots as rooting};

use super::entry::Entry;

// Entries in the state, with the label and the root; without a root, each has to be its own.
#[derive(Clone, Copy)]
pub(crate) struct Want {
    pub(crate) root: Option<u64>,
    pub(crate) state: u64,
    pub(crate) label: u64,
}

// Entries in the state, with the label and the root of e.
pub(crate) fn beside<S: Copy>(e: Entry<S>, state: u64) -> Want
    ensures { result ≡ besides e state }
{
    Want {
        root: Some(e.root),
        state,
        label: e.label,
    }
}

// Roots in the state with the label.
pub(crate) fn roots(state: u64, label: u64) -> Want
    ensures { result ≡ rooting state label }
{
    Want {
        root: None,
        state,
        label,
    }
}

impl Want {
    // Whether the entry, which stands at the place k, is one of them.
    pub(crate) fn fits<S: Copy>(self, k: usize, e: &Entry<S>) -> bool
        ensures { result ≡ wanted self k e.now }
    {
        // By a match: `unwrap_or` makes a search over all entries longer.
        let rooted = match self.root {
            Some(root) => e.root == root,
            None => e.root == k as u64,
        };
        rooted && e.state == self.state && e.label == self.label
    }
}
