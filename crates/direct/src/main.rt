// Makes the ten calls and held directly, each on the state that the one before gave back, and prints a line for each. It
// reaches what no event file can: refusal 8, shares that are not 16, and held.
#![tactic(auto)]

ghost use Rattle.std.specs.Prelude.{◌≤◌};
ghost use Rattle.manager.specs.State.{Sound};

use listing::{Line, Name};
use manager::State;
use manager::begin::begin;
use manager::cancel::cancel;
use manager::deliver::deliver;
use manager::evict::evict;
use manager::finish::finish;
use manager::grant::grant;
use manager::held::held;
use manager::open::open;
use manager::pick::pick;
use manager::recheck::recheck;
use manager::scan::scan;
use maps::Maps;
use rules::Kind;
use std::fmt::Display;
use std::io;
use std::io::Stdout;
use std::marker::Model;

// Where the lines go. Behind a write that fails nothing more is written, and main ends with its error.
#[derive(Drop)]
struct Output {
    to: Stdout,
    failed: Option<io::Error>,
}

impl Output {
    // Writes the bytes of a line.
    fn put(&mut self, line: Line)
        requires { line.len ≤ 64 }
    {
        if self.failed.is_none() {
            self.failed = self.to.write_all(&line.bytes[..line.len]).err();
        }
    }

    // Writes a text.
    fn print(&mut self, text: impl Display + Drop) {
        if self.failed.is_none() {
            self.failed = self.to.print(text).err();
        }
    }
}

// The word of a verdict.
fn word_of(clear: bool) -> &'static str {
    if clear { "clear" } else { "held" }
}

// A run of calls: the state that the last one gave back, and the number of its line.
#[derive(Drop)]
struct Run {
    out: Output,
    number: u32,
    state: State,
}

// No contract says of it more than that its state is sound. A ghost field would want a proof that the law book's `Each` and `InOrder`
// hold in one way only.
impl Model for Run {
    ghost Value = { Unit {0} };

    ghost view = { λ run. tt };

    ghost invariant = { λ run. Sound run.state };
}

impl Run {
    // A run before its first Open: no tenant has a place.
    fn new(to: Stdout) -> Run {
        Run {
            out: Output { to, failed: None },
            number: 0,
            state: open(&[0; 16]),
        }
    }

    // The fuel that a tenant has left; None where no tenant is named, or one that there is not.
    fn left_of(&self, who: Option<u8>) -> Option<u32> {
        match who {
            Some(who) if manager::tenants::is_tenant(who) => {
                Some(manager::tenants::fuel_of(self.state, who))
            }
            _ => None,
        }
    }

    // Makes a call on the state, keeps what it gives back, and prints under the next number what it came to. Open and Pick name no
    // tenant. The number wraps, so that no scene has to say how far it has come.
    fn call<F: FnOnce(State) -> State>(&mut self, kind: Kind, who: Option<u8>, call: F)
        requires may { (s : _) → Sound s → F.pre call s }
        requires keeps { (s r : _) → Sound s → F.post call s r → Sound r }
    {
        self.state = call(self.state);
        self.number = self.number.wrapping_add(1);
        let said = self.state.said;
        let left = self.left_of(who);
        let line = listing::line_of(self.number, Name::Call(kind), said.answer, said.burnt, left);
        self.out.put(line);
    }

    fn open(&mut self, shares: &[u8]) {
        self.call(Kind::Open, None, |_| open(shares));
    }

    fn grant(&mut self, who: u8, amount: u32) {
        self.call(Kind::Grant, Some(who), |s| grant(s, who, amount));
    }

    fn begin(&mut self, who: u8, awaited: u8, reads: &[u8], writes: &[u8]) {
        self.call(
            Kind::Begin,
            Some(who),
            |s| begin(s, who, awaited, reads, writes),
        );
    }

    fn finish(&mut self, who: u8, serial: u16) {
        self.call(Kind::Finish, Some(who), |s| finish(s, who, serial));
    }

    fn recheck(&mut self, who: u8, serial: u16) {
        self.call(Kind::Recheck, Some(who), |s| recheck(s, who, serial));
    }

    fn scan(&mut self, who: u8) {
        self.call(Kind::Scan, Some(who), |s| scan(s, who));
    }

    fn pick(&mut self) {
        self.call(Kind::Pick, None, pick);
    }

    fn deliver(&mut self, who: u8, serial: u16) {
        self.call(Kind::Deliver, Some(who), |s| deliver(s, who, serial));
    }

    fn evict(&mut self, who: u8, serial: u16) {
        self.call(Kind::Evict, Some(who), |s| evict(s, who, serial));
    }

    fn cancel(&mut self, who: u8, serial: u16) {
        self.call(Kind::Cancel, Some(who), |s| cancel(s, who, serial));
    }

    // Prints how many records are held: written, read, and either.
    fn held(&mut self) {
        let t = held(self.state);
        self.out.print(format_args!("held {} {} {}\n", t.written, t.read, t.either));
    }

    // Asks of each entry, front first, whether nothing ahead of it conflicts, and prints the two verdicts: what the maps over the
    // entries ahead say, and what the plain comparison says, to which the entries ahead are lent.
    fn verdicts(&mut self) {
        let s = self.state;
        let mut ahead = Maps::none();
        for (at, e) in s.entries[..s.count].iter().enumerate() {
            let by_maps = word_of(manager::scan::clear_by_maps(&ahead, e));
            let by_pairs = word_of(manager::scan::clear_by_pairs(&s, at));
            self.out
                .print(format_args!("verdict {at} {by_maps} {by_pairs}\n"));
            ahead.add(e.reads(), e.writes());
        }
    }

    // One request of tenant 1 without records comes and goes. No line is printed.
    fn round(&mut self, serial: u16) {
        let running = begin(self.state, 1, 0, &[], &[]);
        self.state = finish(running, 1, serial);
    }
}

// Requests that run and that are blocked: found clear by a recheck, and by a search.
fn calls(run: &mut Run) {
    run.open(&[2, 2, 0, 0, 0, 0, 0, 0, 0, 0, 0, 0, 0, 0, 0, 0]);
    run.grant(1, 40);
    run.grant(2, 40);
    run.begin(1, 0, &[], &[10]);
    run.begin(1, 0, &[], &[11]);
    run.begin(2, 0, &[], &[10, 12]);
    run.begin(2, 0, &[], &[12]);
    run.verdicts();
    run.held();
    run.recheck(2, 1);
    run.finish(1, 1);
    run.held();
    run.scan(2);
    run.recheck(2, 2);
    run.finish(2, 1);
    run.recheck(2, 2);
    run.finish(2, 2);
}

// Requests that wait for remote answers, and a blocked front that is picked.
fn remote(run: &mut Run) {
    run.begin(1, 2, &[5], &[]);
    run.begin(2, 1, &[], &[5, 6]);
    run.verdicts();
    run.deliver(2, 3);
    run.deliver(1, 3);
    run.deliver(1, 3);
    run.pick();
    run.finish(1, 2);
    run.scan(1);
    run.finish(1, 3);
    run.pick();
    run.scan(2);
    run.pick();
}

// Searches that their fuel cuts short, at the first entry and further on.
fn short(run: &mut Run) {
    run.begin(1, 0, &[], &[1, 2, 3, 4, 5, 6, 7, 8]);
    run.grant(3, 2);
    run.scan(3);
    run.scan(3);
    run.scan(3);
    run.grant(3, 12);
    run.scan(3);
    run.scan(1);
    run.grant(1, 40);
    run.verdicts();
    run.finish(2, 3);
    run.scan(1);
}

// Refusals 1 and 2: no such tenant, and no fuel.
fn strangers(run: &mut Run) {
    run.open(&[2, 2, 1, 0, 0, 0, 0, 0, 0, 0, 0, 0, 0, 0, 0, 0]);
    run.grant(0, 5);
    run.grant(17, 5);
    run.grant(255, 5);
    run.begin(0, 0, &[], &[]);
    run.begin(17, 0, &[], &[9]);
    run.finish(255, 1);
    run.recheck(0, 1);
    run.scan(17);
    run.deliver(255, 1);
    run.begin(1, 0, &[], &[]);
    run.finish(1, 1);
    run.recheck(1, 1);
    run.scan(1);
}

// Refusals 3, 4 and 6: lists of 9 and of 200 records, lists that do not rise, one of them for what is left of it, too many answers.
fn lists(run: &mut Run) {
    run.grant(1, 30);
    run.begin(1, 0, &[1, 2, 3, 4, 5, 6, 7, 8, 9], &[]);
    run.begin(1, 0, &[], &[1, 2, 3, 4, 5, 6, 7, 8, 9]);
    run.begin(1, 0, &[7; 200], &[]);
    run.begin(1, 0, &[], &[7; 200]);
    run.begin(1, 0, &[], &[7, 7]);
    run.begin(1, 0, &[9, 3], &[]);
    run.begin(1, 0, &[9, 3, 9, 1], &[9]);
    run.begin(1, 16, &[], &[]);
    run.begin(1, 255, &[], &[]);
}

// Refusals 7, 10, 11 and 12: no place left, no such entry, an entry in another state, no answer due.
fn entries(run: &mut Run) {
    run.begin(1, 0, &[], &[1]);
    run.begin(1, 0, &[], &[1]);
    run.begin(1, 0, &[], &[]);
    run.grant(4, 1);
    run.begin(4, 0, &[], &[]);
    run.finish(1, 2);
    run.recheck(1, 1);
    run.finish(1, 9);
    run.recheck(1, 9);
    run.deliver(1, 9);
    run.deliver(1, 1);
}

// Refusals 9 and 13: too little fuel, and too much.
fn poor(run: &mut Run) {
    run.finish(1, 1);
    run.begin(1, 0, &[1, 2, 3, 4], &[5, 6, 7, 8]);
    run.grant(3, 5);
    run.begin(3, 0, &[], &[1]);
    run.recheck(3, 1);
    run.recheck(3, 1);
    run.grant(2, 1_000_000_000);
    run.grant(2, 1);
    run.grant(2, 4_294_967_295);
}

// Refusal 14, by shares that no file can hold too: 15 of them, 17, none, and a sum of 65.
fn openings(run: &mut Run) {
    run.open(&[4; 15]);
    run.open(&[1; 17]);
    run.open(&[]);
    run.open(&[5, 4, 4, 4, 4, 4, 4, 4, 4, 4, 4, 4, 4, 4, 4, 4]);
    run.grant(1, 5);
    run.begin(1, 0, &[], &[]);
    run.open(&[4; 16]);
    run.grant(16, 4);
    run.begin(16, 0, &[], &[255]);
    run.finish(16, 1);
}

// All 65,535 serials of a tenant, by as many rounds, and refusal 8.
fn numbered(run: &mut Run) {
    run.open(&[2, 2, 0, 0, 0, 0, 0, 0, 0, 0, 0, 0, 0, 0, 0, 0]);
    run.grant(1, 200_000);
    for serial in 1..=65_535 {
        run.round(serial);
    }
    run.begin(1, 0, &[], &[]);
}

// The calls go on for all others.
fn afterwards(run: &mut Run) {
    run.scan(1);
    run.begin(1, 0, &[], &[20]);
    run.finish(1, 65_535);
    run.recheck(1, 65_535);
    run.deliver(1, 65_535);
    run.pick();
    run.grant(2, 40);
    run.begin(2, 0, &[20], &[]);
    run.begin(2, 1, &[], &[20]);
    run.verdicts();
    run.recheck(2, 2);
    run.scan(2);
    run.finish(2, 1);
    run.scan(2);
    run.deliver(2, 2);
    run.finish(2, 2);
}

// A record in both lists is written only: it is counted once, and the order of the reads is judged without it.
fn sales(run: &mut Run) {
    run.begin(2, 0, &[7, 7], &[7]);
    run.begin(2, 0, &[9, 3, 7], &[7, 9]);
    run.verdicts();
    run.recheck(2, 4);
    run.finish(2, 3);
    run.scan(2);
    run.finish(2, 4);
}

// Requests that clash at the borders of the words of a map, at the first record and at the last; and a record that is still held
// when one of those at it has left.
fn borders(run: &mut Run) {
    run.open(&[4, 6, 0, 0, 0, 0, 0, 0, 0, 0, 0, 0, 0, 0, 0, 0]);
    run.grant(1, 200);
    run.grant(2, 200);
    run.held();
    run.begin(1, 0, &[], &[0, 64, 128, 192]);
    run.begin(1, 0, &[63, 127, 191, 255], &[]);
    run.begin(2, 0, &[63, 255], &[]);
    run.begin(2, 0, &[192], &[255]);
    run.begin(2, 0, &[62, 63, 65], &[127, 191]);
    run.begin(2, 2, &[0, 1], &[2, 64]);
    run.held();
    run.deliver(2, 4);
    run.finish(1, 1);
    run.held();
    run.begin(1, 0, &[128], &[192]);
    run.finish(1, 2);
    run.held();
    run.begin(1, 0, &[62], &[63, 126]);
    run.scan(2);
    run.finish(2, 1);
}

// A request that hung with its locks, and four behind it. What is not there, is no tenant's, is not Blocked or has no fuel is
// refused; a blocked one is cancelled, and who waited for it alone runs.
fn stuck(run: &mut Run) {
    run.open(&[2, 3, 1, 1, 0, 0, 0, 0, 0, 0, 0, 0, 0, 0, 0, 0]);
    run.grant(1, 30);
    run.grant(2, 60);
    run.grant(3, 30);
    run.begin(1, 0, &[30], &[10, 255]);
    run.begin(2, 0, &[], &[10, 20]);
    run.begin(3, 1, &[20], &[]);
    run.begin(1, 2, &[40], &[41]);
    run.begin(2, 0, &[255], &[]);
    run.held();
    run.cancel(0, 1);
    run.cancel(4, 1);
    run.cancel(2, 9);
    run.cancel(1, 1);
    run.cancel(1, 2);
    run.evict(17, 1);
    run.evict(3, 2);
    run.scan(3);
    run.cancel(2, 1);
    run.held();
    run.scan(3);
}

// The host takes out the front, one in the middle and the last, in each state; a name that has left is gone, its place is free
// again, and no fuel comes back.
fn evictions(run: &mut Run) {
    run.evict(1, 1);
    run.held();
    run.evict(1, 1);
    run.finish(1, 1);
    run.verdicts();
    run.scan(2);
    run.begin(2, 0, &[], &[255]);
    run.evict(1, 2);
    run.evict(2, 3);
    run.held();
    run.begin(1, 0, &[], &[41]);
    run.evict(3, 1);
    run.deliver(3, 1);
    run.begin(3, 0, &[], &[20]);
    run.evict(2, 2);
    run.evict(1, 3);
    run.finish(3, 2);
}

fn main(rt: HostRuntime) -> io::Result<()> {
    let mut run = Run::new(rt.stdout());
    run.out.put(listing::header());
    calls(&mut run);
    remote(&mut run);
    short(&mut run);
    strangers(&mut run);
    lists(&mut run);
    entries(&mut run);
    poor(&mut run);
    openings(&mut run);
    numbered(&mut run);
    afterwards(&mut run);
    sales(&mut run);
    borders(&mut run);
    run.held();
    stuck(&mut run);
    evictions(&mut run);
    run.held();
    match run.out.failed {
        Some(e) => Err(e),
        None => Ok(()),
    }
}
