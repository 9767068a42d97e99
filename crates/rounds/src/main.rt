// Rounds of a Begin and a Finish, or scans, while other entries are held: what bench/calls measures. Standard input is a
// letter (r for rounds, s for scans, another for neither), a byte with the number of entries held, at most 63, and two
// bytes with the number of rounds or scans, high first. What it prints shows that the work was done: tenant 1's fuel and
// serials, and how many entries are queued.
#![tactic(auto)]

ghost use Rattle.std.specs.Prelude.{◌≤◌};
ghost use Rattle.manager.specs.State.{Sound};

use manager::State;
use std::io;
use std::io::Read;
use std::marker::Model;

// The state that the calls are made on. Tenant 1 has the one place that is measured, tenant 2 holds the others.
// It goes by value from call to call: lent by `&mut`, a round copied it 5 or 6 times, and not 4.
#[derive(Drop)]
struct Bench {
    state: State,
}

// No contract says of it more than that it is sound. A ghost field would want a proof that the law book's `Each` and `InOrder` hold in
// one way only.
impl Model for Bench {
    ghost Value = { Unit {0} };

    ghost view = { λ bench. tt };

    ghost invariant = { λ bench. Sound bench.state };
}

impl Bench {
    fn open() -> Bench {
        let empty = manager::open::open(&[1, 63, 0, 0, 0, 0, 0, 0, 0, 0, 0, 0, 0, 0, 0, 0]);
        let one = manager::grant::grant(empty, 1, 1_000_000_000);
        let state = manager::grant::grant(one, 2, 1_000_000_000);
        Bench { state }
    }

    fn begin(self, who: u8, reads: &[u8], writes: &[u8]) -> Bench {
        let state = manager::begin::begin(self.state, who, 0, reads, writes);
        Bench { state }
    }

    // Tenant 2 holds k entries, each of 2 reads and 2 writes of its own.
    fn hold(mut self, k: u8) -> Bench
        requires { k ≤ 63 }
    {
        for i in 0..k {
            let first = 4 * i;
            self = self.begin(2, &[first, first + 1], &[first + 2, first + 3]);
        }
        self
    }

    // A request of tenant 1 that writes record 3, as the front entry does: it is Blocked, and no scan promotes it.
    fn block(self) -> Bench {
        self.begin(1, &[252, 253], &[3, 254])
    }

    // A request of tenant 1 on records that nobody holds, and its end. Written with `begin` and a `finish` like it, a round copied the
    // state 6 times.
    fn round(self, serial: u16) -> Bench {
        let running = manager::begin::begin(self.state, 1, 0, &[252, 253], &[254, 255]);
        let state = manager::finish::finish(running, 1, serial);
        Bench { state }
    }

    // Requests of tenant 1 on records that nobody holds, each finished before the next.
    fn rounds(mut self, n: u16) -> Bench {
        for serial in 1..=n {
            self = self.round(serial);
        }
        self
    }

    // A scan of tenant 1, which finds no entry to promote.
    fn scan(self) -> Bench {
        let state = manager::scan::scan(self.state, 1);
        Bench { state }
    }

    fn scans(mut self, n: u16) -> Bench {
        for _ in 0..n {
            self = self.scan();
        }
        self
    }

    // The work of a letter on k entries held. With none held the scans find an empty queue.
    fn work(self, letter: u8, k: u8, n: u16) -> Bench {
        match letter {
            b'r' => self.rounds(n),
            b's' if k == 0 => self.scans(n),
            b's' => self.block().scans(n),
            _ => self,
        }
    }

    fn show(&self, rt: &impl Print) -> io::Result<()> {
        let m = self.state.meters[0];
        println!(rt; "{} {} {}", m.fuel, m.serials, self.state.count)
    }
}

fn main(rt: HostRuntime) -> io::Result<()> {
    // what the input does not give is 0
    let mut input = [0u8; 4];
    for (byte, given) in input.iter_mut().zip(rt.stdin().bytes()) {
        *byte = given?;
    }
    let [letter, k, high, low] = input;
    if k <= 63 {
        let n = u16::from_be_bytes([high, low]);
        Bench::open().hold(k).work(letter, k, n).show(&rt)?;
    }
    Ok(())
}
