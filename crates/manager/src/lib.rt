// The lock manager: ten calls on a state by value. Each gives the state after it, in which its answer and the units burnt
// are said, and its contract says that these are the law book's.
#![tactic(auto)]

use entry::Entry;
use maps::Maps;
use meter::Meter;
use rules::Answer;

pub mod begin;
pub mod cancel;
pub mod deliver;
pub mod evict;
pub mod finish;
pub mod grant;
pub mod held;
mod meters;
pub mod open;
pub mod pick;
mod places;
pub mod recheck;
mod refusal;
pub mod scan;
pub mod tenants;

// What a call answered, and the units that it burnt.
#[derive(Clone, Copy)]
pub struct Said {
    pub answer: Answer,
    pub burnt: u32,
}

// The counters Cx and Cs of the records, the maps of the records with Cx and with Cs above 0, the meters of the tenants 1 to 16,
// the queue in its first `count` slots, front first (fixed memory: no heap), and what the last call said. That it is sound is asked by
// the calls and not said by the type: `OfRun.sound` is the theorem that an opening makes it so, and each call keeps it.
#[derive(Clone, Copy)]
pub struct State {
    pub cx: [u8; 256],
    pub cs: [u8; 256],
    pub maps: Maps,
    pub meters: [Meter; 16],
    pub count: usize,
    pub entries: [Entry; 64],
    pub said: Said,
}
