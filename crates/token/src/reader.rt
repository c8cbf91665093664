ghost use Rattle.std.specs.Prelude.{◌≤◌, length};

// A part of the text, with the place of its first byte: the letters of a name without their
// quotes, the bytes of a number, or one of the marks { } [ ] : and comma. Each borrows its bytes, also a
// mark its one byte: the form that the project asks for.
#[derive(Clone, Copy)]
pub enum Token<'a> {
    Name(&'a [u8], usize),
    Number(&'a [u8], usize),
    Mark(&'a [u8], usize),
}

// A text and the place of the first byte that is not read yet.
#[derive(Drop)]
pub struct Reader<'a> {
    pub(crate) text: &'a [u8],
    pub(crate) place: usize,
    ghost within: { place ≤ length text.now },
}
