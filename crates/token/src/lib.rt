#![tactic(auto)]

// The tokens of a text, and a reader that goes through a lent text without copying it.

mod bytes;
mod lex;
mod reader;
mod reading;

pub use reader::{Reader, Token};
pub use reading::{LONGEST, admit};

#[cfg(test)]
mod tests {
    use super::*;
    use fault::{Fault, Place};

    // The number of the refusal, and the byte that it names.
    fn refused(r: Result<u64, Fault>) -> Option<(u8, u64)> {
        let Err(fault) = r else {
            return None;
        };
        let Place::Byte(b) = fault.place else {
            return None;
        };
        Some((fault.refusal.number(), b))
    }

    fn number(text: &[u8]) -> Result<u64, Fault> {
        let mut reader = Reader::new(text);
        reader.number()
    }

    fn member(text: &[u8]) -> Result<u64, Fault> {
        let mut reader = Reader::new(text);
        reader.mark('{')?;
        reader.member(b"scale")?;
        let n = reader.number()?;
        reader.mark('}')?;
        reader.end()?;
        Ok(n)
    }

    #[test]
    fn numbers(rt: HostRuntime) {
        assert!(rt; number(b" \t\r\n1000000000000000").ok() == Some(1_000_000_000_000_000));
        assert!(rt; refused(number(b" 1000000000000001")) == Some((25, 1)));
        assert!(rt; refused(number(b"99999999999999999999999999")) == Some((25, 0)));
        assert!(rt; refused(number(b"-0")) == Some((25, 0)));
        assert!(rt; refused(number(b"1.5e+3")) == Some((25, 0)));
        assert!(rt; refused(number(b" +1")) == Some((23, 1)));
        assert!(rt; refused(number(b"-")) == Some((23, 0)));
        assert!(rt; refused(number(b"  ")) == Some((24, 2)));
    }

    #[test]
    fn members(rt: HostRuntime) {
        assert!(rt; member(b"{ \"scale\" : 12 }\n").ok() == Some(12));
        assert!(rt; refused(member(b"{\"scale\":01}")) == Some((24, 10)));
        assert!(rt; refused(member(b"{\"scale\":1.}")) == Some((23, 10)));
        assert!(rt; refused(member(b"{\"Scale\":1}")) == Some((23, 1)));
        assert!(rt; refused(member(b"{\"top\":1}")) == Some((24, 1)));
        assert!(rt; refused(member(b"{\"scale\":1} ]")) == Some((24, 12)));
        assert!(rt; refused(member(b"{\"scale\":1} true")) == Some((23, 12)));
    }
}
