// A text is settled: read from its first byte to its last, with an answer noted for each object.

ghost use Rattle.std.specs.Prelude.{◌≡◌, ◌≤◌, [], map, IfOk, vec_len};
ghost use Rattle.fault.specs.Faults.{outcome};
ghost use Rattle.text.specs.Documents.{ended, settled_text};
ghost use Rattle.text.specs.Written.{AsWritten};

use crate::rows::Rows;
use crate::workspace::Workspace;
use case::Case;
use fault::Fault;
use line::Answer;
use std::alloc::{AllocError, Global};
use token::{LONGEST, Reader, admit};

impl Workspace {
    // All room is taken here, so settling a text cannot fail for want of memory.
    pub fn new(heap: Global) -> Result<Workspace, AllocError>
        ensures { IfOk result (λ w. w.answers.items ≡ []) }
    {
        let case = Case::new(heap)?;
        // A text has no more tokens than bytes; a row takes one, and so does an answer but for the last.
        let asks = Vec::with_capacity(heap, LONGEST)?;
        let answers = Vec::with_capacity(heap, LONGEST + 1)?;
        Ok(Workspace {
            case,
            rows: Rows { asks },
            answers,
        })
    }

    // Reads a text, which is an array of objects, and notes their answers.
    fn read(&mut self, text: &[u8]) -> Result<(), Fault>
        requires none { self.old.answers.items ≡ [] }
        requires zero { vec_len self.old.answers ≡ 0 }
        ensures says { ended result (map outcome self.new.answers.items) ≡ settled_text text.now }
        ensures fits { vec_len self.new.answers ≤ 65536 }
    {
        admit(text)?;
        let mut reader = Reader::new(text);
        reader.mark('[')?;
        if reader.passes(']') {
            return reader.end();
        }
        self.objects(&mut reader)
    }

    // Settles a text of any bytes and any length. A document comes to the same, however it is laid
    // out: to what its own calls come to.
    pub fn settle(&mut self, text: &[u8])
        ensures says { map outcome self.new.answers.items ≡ settled_text text.now }
        ensures laid { AsWritten text.now (map outcome self.new.answers.items) }
    {
        self.answers.clear();
        if let Err(fault) = self.read(text) {
            self.answers.push_reserved(Err(fault));
        }
    }

    // What the last text came to, an answer for each object and for the fault that ended it.
    pub fn answers(&self) -> &[Answer]
        ensures { result.now ≡ self.now.answers.items }
    {
        &self.answers
    }
}
