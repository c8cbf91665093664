// The objects of a text: each is read, its calls are made, and its answer is noted. Each function says of
// its own how many answers are noted: it depends on the tokens that the reader had ahead.

ghost use Rattle.std.specs.Prelude.{◌≡◌, ◌+◌, ◌≤◌, ◌++◌, map, vec_len};
ghost use Rattle.fault.specs.Faults.{outcome};
ghost use Rattle.token.specs.Tokens.{at};
ghost use Rattle.token.specs.Grammar.{size};
ghost use Rattle.case.specs.Views.{view};
ghost use Rattle.text.specs.Documents.{ended, later_objects, first_object};

use crate::performing::perform;
use crate::workspace::Workspace;
use fault::Fault;
use token::Reader;

impl Workspace {
    // The objects after one, up to the end of the text.
    fn later(&mut self, reader: &mut Reader<'_>) -> Result<(), Fault>
        requires { vec_len self.old.answers + size (at reader.old) ≤ 65536 }
        ensures says { ended result (map outcome self.new.answers.items) ≡ map outcome self.old.answers.items ++ later_objects (view self.old.case) (at reader.old) }
        ensures fits { vec_len self.new.answers ≤ 65536 }
    {
        while reader.comma(']')? {
            self.rows.run(reader)?;
            let answer = perform(&mut self.case, &self.rows.asks);
            self.answers.push_reserved(answer);
        }
        reader.end()
    }

    // The first object and, unless it is refused, those after it.
    pub(crate) fn objects(&mut self, reader: &mut Reader<'_>) -> Result<(), Fault>
        requires { vec_len self.old.answers + size (at reader.old) ≤ 65536 }
        ensures says { ended result (map outcome self.new.answers.items) ≡ map outcome self.old.answers.items ++ first_object (at reader.old) }
        ensures fits { vec_len self.new.answers ≤ 65536 }
    {
        self.rows.model(reader)?;
        self.case.renew();
        let answer = perform(&mut self.case, &self.rows.asks);
        self.answers.push_reserved(answer);
        if answer.is_err() {
            return Ok(());
        }
        self.later(reader)
    }
}
