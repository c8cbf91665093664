// How long the token at the front of some bytes is, and the parts of a number. A part that is missing is
// truly 0 long. Each function says `within` of its own: the bytes differ from call to call, so a type that
// held the bound would be no plainer.

ghost use Rattle.std.specs.Prelude.{◌≡◌, ◌≤◌, length, IfSome};
ghost use Rattle.token.specs.Lex.{digits_len, sign_len, whole_len, fraction_len, power_len, exponent_len, tail_len, number_len, name_len, some_len};

use crate::bytes::run_len;

fn digits_len(rest: &[u8]) -> usize
    ensures value { result ≡ digits_len rest.now }
    ensures within { result ≤ length rest.now }
{
    run_len(rest, |b| b.is_ascii_digit())
}

fn whole_len(rest: &[u8]) -> Option<usize>
    ensures value { result ≡ some_len (whole_len rest.now) }
    ensures within { IfSome result (λ n. n ≤ length rest.now) }
{
    match rest {
        [b'0', ..] => Some(1),
        [b'1'..=b'9', ..] => Some(digits_len(rest)),
        _ => None,
    }
}

fn fraction_len(rest: &[u8]) -> usize
    ensures value { result ≡ fraction_len rest.now }
    ensures within { result ≤ length rest.now }
{
    let [b'.', more @ ..] = rest else {
        return 0;
    };
    let n = digits_len(more);
    if n > 0 { 1 + n } else { 0 }
}

fn power_len(rest: &[u8]) -> usize
    ensures value { result ≡ power_len rest.now }
    ensures within { result ≤ length rest.now }
{
    match rest {
        [b'e' | b'E', b'+' | b'-', ..] => 2,
        [b'e' | b'E', ..] => 1,
        _ => 0,
    }
}

fn exponent_len(rest: &[u8]) -> usize
    ensures value { result ≡ exponent_len rest.now }
    ensures within { result ≤ length rest.now }
{
    let power = power_len(rest);
    let n = digits_len(&rest[power..]);
    if power > 0 && n > 0 { power + n } else { 0 }
}

fn tail_len(rest: &[u8]) -> usize
    ensures value { result ≡ tail_len rest.now }
    ensures within { result ≤ length rest.now }
{
    let fraction = fraction_len(rest);
    fraction + exponent_len(&rest[fraction..])
}

fn sign_len(rest: &[u8]) -> usize
    ensures value { result ≡ sign_len rest.now }
    ensures within { result ≤ length rest.now }
{
    match rest {
        [b'-', ..] => 1,
        _ => 0,
    }
}

pub(crate) fn number_len(rest: &[u8]) -> Option<usize>
    ensures value { result ≡ some_len (number_len rest.now) }
    ensures within { IfSome result (λ n. n ≤ length rest.now) }
{
    let sign = sign_len(rest);
    let whole = whole_len(&rest[sign..])?;
    Some(sign + whole + tail_len(&rest[sign + whole..]))
}

pub(crate) fn name_len(rest: &[u8]) -> Option<usize>
    ensures value { result ≡ some_len (name_len rest.now) }
    ensures within { IfSome result (λ n. (2 ≤ n) × (n ≤ length rest.now)) }
{
    let [b'"', more @ ..] = rest else {
        return None;
    };
    let n = run_len(more, |b| b.is_ascii_lowercase());
    match &more[n..] {
        [b'"', ..] if n > 0 => Some(n + 2),
        _ => None,
    }
}
