ghost use Rattle.std.specs.Prelude.{◌≤◌, vec_capacity};

use crate::rows::Rows;
use case::Case;
use line::Answer;

// All that settling a text needs: a case, room for the rows of an object and room for the answers.
#[derive(Drop)]
pub struct Workspace {
    pub(crate) case: Case,
    pub(crate) rows: Rows,
    pub(crate) answers: Vec<Answer>,
    ghost room: { 65537 ≤ vec_capacity answers },
}
