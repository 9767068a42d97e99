// One step of an event file: the call that stands at a position is made, and its line written.
#![tactic(auto)]

ghost use Rattle.std.specs.Prelude.{◌≡◌};
ghost use Rattle.manager.specs.State.{view, Sound};
ghost use Rattle.manager.specs.Runs.{DidCall};
ghost use Rattle.events.specs.Events.{call_at};
ghost use Rattle.replay.specs.Replay.{left_after, unopened, ReadAt, Steps};

use events::Next;
use listing::{Line, Name};
use manager::State;
use rules::{Answer, Event, Kind};

pub mod input;
pub mod output;
mod piece;
pub mod print;

// What a step comes to: the state after it, the line of its record, and where the next record begins; None where the reading
// stops.
#[derive(Clone, Copy)]
struct Stepped {
    state: State,
    line: Line,
    next: Option<usize>,
}

// The fuel that a tenant has in a state.
fn left_in(s: State, who: u8) -> Option<u32>
    ensures { result ≡ left_after (view s) who }
{
    if manager::tenants::is_tenant(who) {
        Some(manager::tenants::fuel_of(s, who))
    } else {
        None
    }
}

// The call of the event at a position. A match: each call takes other arguments.
fn called(s: State, bytes: &[u8], at: usize, e: Event) -> State
    requires sound { Sound s }
    requires read_at { ReadAt bytes.now at e }
    ensures { DidCall s (call_at bytes.now at e) result }
{
    match e.kind {
        Kind::Open => manager::open::open(events::shares(bytes, at)),
        Kind::Grant => manager::grant::grant(s, e.tenant, e.amount),
        Kind::Begin => {
            let reads = events::reads(bytes, at);
            let writes = events::writes(bytes, at);
            manager::begin::begin(s, e.tenant, e.awaited, reads, writes)
        }
        Kind::Finish => manager::finish::finish(s, e.tenant, e.serial),
        Kind::Recheck => manager::recheck::recheck(s, e.tenant, e.serial),
        Kind::Scan => manager::scan::scan(s, e.tenant),
        Kind::Pick => manager::pick::pick(s),
        Kind::Deliver => manager::deliver::deliver(s, e.tenant, e.serial),
        Kind::Evict => manager::evict::evict(s, e.tenant, e.serial),
        Kind::Cancel => manager::cancel::cancel(s, e.tenant, e.serial),
    }
}

// The step of a file: whatever the bytes and the position are, the call that stands there is made and its line written, or
// the refusal's line written, or the end told by a line of no bytes.
fn step(s: State, bytes: &[u8], at: usize, first: bool, number: u32) -> Stepped
    requires { Sound s }
    ensures { Steps s bytes.now at first number result }
{
    match events::record_at(bytes, at, first) {
        Next::Call(e, next) => {
            let after = called(s, bytes, at, e);
            let said = after.said;
            let left = left_in(after, e.tenant);
            Stepped {
                state: after,
                line: listing::line_of(number, Name::Call(e.kind), said.answer, said.burnt, left),
                next: Some(next),
            }
        }
        Next::Refused(why) => Stepped {
            state: s,
            line: listing::line_of(number, Name::File, Answer::Refused(why), 0, None),
            next: None,
        },
        Next::End => Stepped {
            state: s,
            line: Line::new(),
            next: None,
        },
    }
}

// The state before the first record: every share 0.
fn start() -> State
    ensures sound { Sound result }
    ensures result_value { view result ≡ unopened }
{
    manager::open::open(&[0; 16])
}
