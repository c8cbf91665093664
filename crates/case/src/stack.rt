ghost use Rattle.std.specs.Prelude.{◌≤◌, vec_len, vec_capacity};

use automaton::Symbol;

// The stack of a run, its top last; room for 128 symbols is reserved.
#[derive(Drop)]
pub struct Stack {
    pub(crate) symbols: Vec<Symbol>,
    ghost room: { 128 ≤ vec_capacity symbols },
    ghost few: { vec_len symbols ≤ 128 },
}
