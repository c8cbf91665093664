// The white bytes, and how many bytes at the front of a text pass a test.

ghost use Rattle.std.specs.Prelude.{◌≡◌, ℕ, Bool, ◌≤◌, length};
ghost use Rattle.std.specs.List.{prefix_len};
ghost use Rattle.token.specs.Bytes.{white};

pub(crate) fn is_white(b: u8) -> bool
    ensures { result ≡ white b }
{
    matches!(b as char, ' ' | '\t' | '\n' | '\r')
}

// How many bytes at the front pass.
pub(crate) fn run_len<F: Fn(u8) -> bool>(rest: &[u8], test: F) -> usize
    requires { F.IsAlwaysCallable test }
    ensures value { (p : ℕ → Bool) → ((b : ℕ) (r : Bool) → F.post test b r → r ≡ p b) → result ≡ prefix_len p rest.now }
    ensures within { result ≤ length rest.now }
{
    rest.iter().take_while(|b| test(**b)).count()
}
