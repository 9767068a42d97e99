// Scans of an empty queue, twice as many as the one byte of standard input says, and tenant 1's fuel after them: what
// bench/calls measures the stack of. No Begin or Finish is in this program, and it reads and writes without a buffer, so that
// nothing needs more stack than a scan does.
#![tactic(auto)]

ghost use Rattle.manager.specs.State.{Sound};

use manager::State;
use std::io;
use std::io::{Read, Write};

fn opened() -> State
    ensures { Sound result }
{
    let empty = manager::open::open(&[4; 16]);
    manager::grant::grant(empty, 1, 1_000_000_000)
}

fn scans(mut s: State, n: u8) -> State
    requires { Sound s }
    ensures { Sound result }
{
    for _ in 0..n {
        s = manager::scan::scan(s, 1);
    }
    s
}

fn show(rt: &impl Print, s: State) -> io::Result<()> {
    writeln!(io::writer(rt), "{}", s.meters[0].fuel)
}

// The scans are called for in two places, and not at all where there are none: so the compiler keeps their frame apart from
// main's, and a run without them shows what the rest needs.
fn main(rt: HostRuntime) -> io::Result<()> {
    // an empty input gives 0
    let mut input = [0u8; 1];
    rt.stdin().read(&mut input)?;
    let n = input[0];
    let s = opened();
    if n == 0 {
        show(&rt, s)
    } else {
        let half = scans(s, n);
        let whole = scans(half, n);
        show(&rt, whole)
    }
}
