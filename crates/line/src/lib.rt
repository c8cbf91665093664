#![tactic(auto)]

// Writes an answer as a line of words and numbers into a lent buffer.

ghost use Rattle.std.specs.Prelude.{◌≡◌, ◌+◌, ◌≤◌, ◌++◌};
ghost use Rattle.arrayvec.specs.ArrayString.{array_string_len};
ghost use Rattle.line.specs.Lines.{layer_word, standing_word, spaced, places, rendered, written, overwritten};

use arrayvec::ArrayString;
use case::Standing;
use fault::{Fault, Layer, Place};
use itoa::Buffer;

// What an object came to: the standing, or the fault that refused it.
pub type Answer = Result<Standing, Fault>;

// No line is longer.
pub const LONGEST: usize = 101;

// Words are appended one by one: `write!` does not promise to write what fits.
type Line = ArrayString<LONGEST>;

fn layer_word(layer: Layer) -> &'static str
    ensures { result.now ≡ layer_word layer }
{
    match layer {
        Layer::Text => "text",
        Layer::Record => "record",
        Layer::Case => "case",
        Layer::Evidence => "evidence",
    }
}

fn standing_word(standing: Standing) -> &'static str
    ensures { result.now ≡ standing_word standing }
{
    match standing {
        Standing::Undecided => "undecided",
        Standing::Reachable => "reachable",
        Standing::Unreachable => "unreachable",
    }
}

// Appends a space and the number.
fn put_spaced(line: &mut Line, n: u64)
    requires { array_string_len line.old + 21 ≤ 101 }
    ensures puts { line.new.bytes ≡ line.old.bytes ++ spaced n }
    ensures short { array_string_len line.new ≤ array_string_len line.old + 21 }
{
    line.push_str(" ");
    line.push_str(Buffer::new().format(n));
}

fn put_places(line: &mut Line, place: Place)
    requires { array_string_len line.old + 63 ≤ 101 }
    ensures puts { line.new.bytes ≡ line.old.bytes ++ places place }
    ensures short { array_string_len line.new ≤ array_string_len line.old + 63 }
{
    match place {
        Place::Byte(n) | Place::Row(n) => put_spaced(line, n),
        Place::Table { entry, rule, above } => {
            put_spaced(line, entry);
            put_spaced(line, rule);
            put_spaced(line, above);
        }
    }
}

// The whole line, in a buffer of its own.
fn render(answer: Answer) -> Line
    ensures { result.bytes ≡ rendered answer }
{
    let mut line = Line::new();
    match answer {
        Ok(standing) => line.push_str(standing_word(standing)),
        Err(fault) => {
            line.push_str("refused");
            put_spaced(&mut line, fault.refusal.number() as u64);
            line.push_str(" ");
            line.push_str(layer_word(fault.refusal.layer()));
            put_places(&mut line, fault.place);
        }
    }
    line.push_str("\n");
    line
}

// Writes the answer's line at the front of the buffer, and returns how long it is. A buffer that
// is too short for it stays as it was.
pub fn write_line(line: &mut [u8], answer: Answer) -> Option<usize>
    ensures value { result ≡ written (rendered answer) line.old }
    ensures after { line.new ≡ overwritten (rendered answer) line.old }
{
    let whole = render(answer);
    let bytes = whole.as_bytes();
    let (front, _) = line.split_at_mut_checked(bytes.len())?;
    front.copy_from_slice(bytes);
    Some(bytes.len())
}

#[cfg(test)]
mod tests {
    use super::*;
    use fault::Refusal;

    fn is_line(answer: Answer, line: &[u8]) -> bool {
        let mut buffer = [7; 101];
        match write_line(&mut buffer, answer) {
            Some(n) => n <= 101 && &buffer[0..n] == line,
            None => false,
        }
    }

    #[test]
    fn lines(rt: HostRuntime) {
        let place = Place::Table {
            entry: 0,
            rule: 64,
            above: 2048,
        };
        let table = Fault {
            refusal: Refusal::NotClosed,
            place,
        };
        assert!(rt; is_line(Err(table), b"refused 22 evidence 0 64 2048\n"));
        let text = Fault {
            refusal: Refusal::NoToken,
            place: Place::Byte(u64::MAX),
        };
        assert!(rt; is_line(Err(text), b"refused 23 text 18446744073709551615\n"));
        let row = Fault {
            refusal: Refusal::RuleTableFull,
            place: Place::Row(65),
        };
        assert!(rt; is_line(Err(row), b"refused 3 case 65\n"));
        assert!(rt; is_line(Ok(Standing::Unreachable), b"unreachable\n"));
    }

    #[test]
    fn too_short(rt: HostRuntime) {
        let mut buffer = [7; 9];
        assert!(rt; write_line(&mut buffer, Ok(Standing::Undecided)) == None);
        assert!(rt; &buffer == &[7; 9]);
    }
}
