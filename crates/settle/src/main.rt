#![tactic(auto)]

// Reads a text from standard input, and prints one line for each of its objects.

ghost use Rattle.std.specs.Prelude.{◌≡◌, ◌≤◌, length, take, IfOk, IfSome, option_map};

use line::{Answer, LONGEST, write_line};
use std::io;
use std::io::{Read, Write};
use text::Workspace;

// The longest text, and one byte more: a longer one is told by that byte.
const ROOM: usize = token::LONGEST + 1;

// Fills the buffer with what the input holds, up to its end. Each read is offered all the room that is
// left, since an input that keeps its messages apart loses what a read has no room for.
fn fill<R: Read>(input: &mut R, text: &mut [u8]) -> io::Result<usize>
    ensures bytes { IfOk result (λ n. IfSome (option_map (take (length text.old)) (R.remaining input.old)) (λ bytes. take n text.new ≡ bytes)) }
    ensures few { IfOk result (λ n. n ≤ length text.old) }
{
    let mut n = 0;
    while n < text.len() {
        let more = input.read(&mut text[n..])?;
        if more == 0 {
            break;
        }
        n += more;
    }
    Ok(n)
}

fn say<W: Write>(out: &mut W, answer: Answer) -> io::Result<()> {
    let mut line = [0u8; LONGEST];
    match write_line(&mut line, answer) {
        Some(n) => out.write_all(&line[..n]),
        None => Ok(()),
    }
}

fn settle(rt: &HostRuntime) -> anyhow::Result<()> {
    let mut text = [0u8; ROOM];
    let n = fill(&mut rt.stdin(), &mut text)?;
    let mut workspace = Workspace::new(rt.alloc())?;
    workspace.settle(&text[..n]);
    let mut out = rt.stdout();
    for answer in workspace.answers() {
        say(&mut out, *answer)?;
    }
    out.flush()?;
    Ok(())
}

fn main(rt: HostRuntime) -> anyhow::Result<()> {
    settle(&rt)
}
