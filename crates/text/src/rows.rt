ghost use Rattle.std.specs.Prelude.{◌≤◌, vec_capacity};

use crate::asks::Ask;

// What the rows of an object ask for, its head first; room is taken for all that a text can hold.
#[derive(Drop)]
pub(crate) struct Rows {
    pub(crate) asks: Vec<Ask>,
    ghost room: { 65536 ≤ vec_capacity asks },
}
