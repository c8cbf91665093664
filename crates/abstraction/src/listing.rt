ghost use Rattle.std.specs.Prelude.{◌≤◌, vec_len, vec_capacity};

// Room for one answer of an abstraction: 1,048,576 shapes, reserved when it is made.
#[derive(Drop)]
pub struct Listing<S> {
    pub(crate) shapes: Vec<S>,
    ghost room: { 1048576 ≤ vec_capacity shapes },
    ghost few: { vec_len shapes ≤ 1048576 },
}
