// The calls of a reader. Each passes the token that it judges, also when it refuses it. Each says
// `same` of its own: it ties two states, which no invariant of the type does.

ghost use Rattle.std.specs.Prelude.{◌≡◌, ◌+◌, ◌≤◌, length, drop, IfOk};
ghost use Rattle.std.specs.List.{prefix_len};
ghost use Rattle.fault.specs.Faults.{outcome};
ghost use Rattle.fault.specs.declared.Place.TheVariants.{Byte};
ghost use Rattle.token.specs.Bytes.{white};
ghost use Rattle.token.specs.Tokens.{text_of, at, out, step, view, OneByte, place_of, tokens, admitted};
ghost use Rattle.token.specs.Plain.{ReadsPlain};
ghost use Rattle.token.specs.Layout.{AsLaidOut, WasLaidOut};
ghost use Rattle.token.specs.Grammar.{numeral, mark_due, name_due, number_due, comma_due, member_due, mark_next, past_mark, is_end, end_due};

use crate::bytes::{is_white, run_len};
use crate::lex::{name_len, number_len};
use crate::{Reader, Token};
use fault::{Fault, Place, Refusal};

// The longest text and the greatest number that are read.
pub const LONGEST: usize = 65_536;

const GREATEST: u64 = 1_000_000_000_000_000;

fn at_byte(refusal: Refusal, place: usize) -> Fault
    ensures what { result.refusal ≡ refusal }
    ensures site { result.place ≡ Byte place }
{
    Fault {
        refusal,
        place: Place::Byte(place as u64),
    }
}

// The number that the bytes write, if all are digits and it is at most 10^15. A fold would have both tests
// in its closure, and be as long.
fn value_of(bytes: &[u8]) -> Option<u64>
    ensures { result ≡ numeral 0 bytes.now }
{
    let mut n: u64 = 0;
    for b in bytes {
        if !b.is_ascii_digit() {
            return None;
        }
        n = n * 10 + u64::from(*b - b'0');
        if n > GREATEST {
            return None;
        }
    }
    Some(n)
}

// Whether a text is short enough to be read.
pub fn admit(text: &[u8]) -> Result<(), Fault>
    ensures { outcome result ≡ admitted text.now }
{
    if text.len() > LONGEST {
        return Err(at_byte(Refusal::NoToken, LONGEST));
    }
    Ok(())
}

impl<'a> Token<'a> {
    // The place of the token's first byte.
    pub fn place(self) -> usize
        ensures { result ≡ place_of (view self.entry) }
    {
        match self {
            Token::Name(_, place) | Token::Number(_, place) | Token::Mark(_, place) => place,
        }
    }
}

impl<'a> Reader<'a> {
    // A reader at the front of a text. Tokens laid out in any way are read as just these, and a
    // text that is read to its end was laid out so.
    pub fn new(text: &'a [u8]) -> Reader<'a>
        ensures over { text_of result ≡ text.now }
        ensures reads { at result ≡ tokens text.now }
        ensures laid { AsLaidOut text.now (at result) }
        ensures only { WasLaidOut text.now (at result) }
    {
        Reader { text, place: 0 }
    }

    // The place of the next byte that is not white.
    fn start(&self) -> usize
        ensures value { result ≡ self.now.place + prefix_len white (drop self.now.place self.now.text.now) }
        ensures within { result ≤ length self.now.text.now }
    {
        self.place + run_len(&self.text[self.place..], is_white)
    }

    // The next token.
    pub fn next(&mut self) -> Result<Token<'a>, Fault>
        ensures same { text_of self.new ≡ text_of self.old }
        ensures reads { out view result (at self.new) ≡ step (at self.old) }
        ensures marked { IfOk result OneByte }
    {
        let start = self.start();
        let text = self.text;
        let rest = &text[start..];
        let Some(first) = rest.first() else {
            return Err(at_byte(Refusal::OtherTokenDue, start));
        };
        match *first as char {
            '{' | '}' | '[' | ']' | ':' | ',' => {
                self.place = start + 1;
                Ok(Token::Mark(&rest[..1], start))
            }
            '"' => {
                let n = name_len(rest).ok_or(at_byte(Refusal::NoToken, start))?;
                self.place = start + n;
                Ok(Token::Name(&rest[1..n - 1], start))
            }
            _ => {
                let n = number_len(rest).ok_or(at_byte(Refusal::NoToken, start))?;
                self.place = start + n;
                Ok(Token::Number(&rest[..n], start))
            }
        }
    }

    // The mark `due` stands next.
    pub fn mark(&mut self, due: char) -> Result<(), Fault>
        ensures same { text_of self.new ≡ text_of self.old }
        ensures reads { out (λ _. tt) result (at self.new) ≡ mark_due due (at self.old) }
    {
        match self.next()? {
            Token::Mark(bytes, _) if bytes[0] as char == due => Ok(()),
            other => Err(at_byte(Refusal::OtherTokenDue, other.place())),
        }
    }

    // The name `word` stands next.
    pub fn name(&mut self, word: &[u8]) -> Result<(), Fault>
        ensures same { text_of self.new ≡ text_of self.old }
        ensures reads { out (λ _. tt) result (at self.new) ≡ name_due word.now (at self.old) }
    {
        match self.next()? {
            Token::Name(bytes, _) if bytes == word => Ok(()),
            other => Err(at_byte(Refusal::OtherTokenDue, other.place())),
        }
    }

    // The number that stands next, which is written with digits alone and is at most 10^15.
    pub fn number(&mut self) -> Result<u64, Fault>
        ensures same { text_of self.new ≡ text_of self.old }
        ensures reads { out (λ n. n) result (at self.new) ≡ number_due (at self.old) }
        ensures plain { ReadsPlain (at self.old) result }
    {
        match self.next()? {
            Token::Number(bytes, place) => {
                value_of(bytes).ok_or(at_byte(Refusal::NumberUnfit, place))
            }
            other => Err(at_byte(Refusal::OtherTokenDue, other.place())),
        }
    }

    // Whether a comma stands next, with more to follow, or the mark `close`.
    pub fn comma(&mut self, close: char) -> Result<bool, Fault>
        ensures same { text_of self.new ≡ text_of self.old }
        ensures reads { out (λ n. n) result (at self.new) ≡ comma_due close (at self.old) }
    {
        match self.next()? {
            Token::Mark(bytes, _) if bytes[0] as char == ',' => Ok(true),
            Token::Mark(bytes, _) if bytes[0] as char == close => Ok(false),
            other => Err(at_byte(Refusal::OtherTokenDue, other.place())),
        }
    }

    // The name `word` and a colon stand next.
    pub fn member(&mut self, word: &[u8]) -> Result<(), Fault>
        ensures same { text_of self.new ≡ text_of self.old }
        ensures reads { out (λ _. tt) result (at self.new) ≡ member_due word.now (at self.old) }
    {
        self.name(word)?;
        self.mark(':')
    }

    // Whether the mark `sought` stands next, which is then passed; else nothing is.
    pub fn passes(&mut self, sought: char) -> bool
        ensures same { text_of self.new ≡ text_of self.old }
        ensures value { result ≡ mark_next sought (at self.old) }
        ensures after { at self.new ≡ past_mark sought (at self.old) }
    {
        let before = self.place;
        if let Ok(Token::Mark(bytes, _)) = self.next()
            && bytes[0] as char == sought
        {
            return true;
        }
        self.place = before;
        false
    }

    // Whether only white space is left.
    fn at_end(&self) -> bool
        ensures { result ≡ is_end (at self.now) }
    {
        self.start() == self.text.len()
    }

    // Only white space is left.
    pub fn end(&mut self) -> Result<(), Fault>
        ensures same { text_of self.new ≡ text_of self.old }
        ensures reads { out (λ _. tt) result (at self.new) ≡ end_due (at self.old) }
    {
        if self.at_end() {
            return Ok(());
        }
        let token = self.next()?;
        Err(at_byte(Refusal::OtherTokenDue, token.place()))
    }
}
