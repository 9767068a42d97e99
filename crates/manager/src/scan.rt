// Scan: the caller's first Blocked entry that conflicts with nothing ahead of it is promoted. Each entry is paid for
// before it is looked at.
ghost use Rattle.std.specs.Prelude.{◌≡◌, not, get_or, take};
ghost use Rattle.rules.specs.Request.{nobody, conflicts_any};
ghost use Rattle.rules.specs.Prices.{prices_of};
ghost use Rattle.rules.specs.Refusals.{first_of, scan_rows};
ghost use Rattle.rules.specs.Scan.{clear_by};
ghost use Rattle.rules.specs.Calls.{scan_of};
ghost use Rattle.entry.specs.Entry.{request};
ghost use Rattle.manager.specs.State.{view, Sound, Did};
ghost use Rattle.maps.specs.Maps.{maps_of};

use super::{meters, refusal};
use crate::{Said, State};
use entry::Entry;
use maps::Maps;
use rules::{Answer, Mode, Refusal};

// The verdict of the maps: no read is in the map of written records, and no write is in either.
#[tactic(auto, unfolding(rules::specs::Scan::clear_by))]
pub fn clear_by_maps(ahead: &Maps, e: &Entry) -> bool
    ensures { result ≡ clear_by (maps_of ahead.now) (request e.now) }
{
    ahead.clear(e.reads(), e.writes())
}

// The plain side: the entries ahead of a place are lent to a pairwise comparison with the entry there. Where no entry
// stands, nothing conflicts.
pub fn clear_by_pairs(s: &State, at: usize) -> bool
    requires { Sound s.now }
    ensures { result ≡ not (conflicts_any (take at (view s.now).queue) (get_or (view s.now).queue at nobody)) }
{
    s.count <= at || !entry::clash_before(&s.entries, at, &s.entries[at])
}

// The search from the front, by a tenant that has fuel. Each entry is paid for before it is looked at, and the two maps grow by it.
fn search(n: &mut State, who: u8)
    requires sound { Sound n.old }
    requires fuelled { first_of (scan_rows (view n.old) who) ≡ 0 }
    ensures { Did n.new (scan_of (prices_of (view n.old)) (view n.old) who) }
{
    let k = (who - 1) as usize;
    let mut left = meter::charged(n.meters[k], 1);
    let mut burnt = 0;
    let mut answer = Answer::Nothing;
    let mut ahead = Maps::none();
    for i in 0..n.count {
        let e = n.entries[i];
        let cost = 1 + e.size() as u32;
        let short = left.fuel < cost;
        if short {
            answer = Answer::Refused(Refusal::TooDear.number());
            break;
        }
        left = meter::charged(left, cost);
        burnt += cost;
        if e.tenant == who && e.mode == Mode::Blocked && clear_by_maps(&ahead, &e) {
            let p = e.promoted();
            n.entries[i] = p;
            answer = p.named();
            break;
        }
        ahead.add(e.reads(), e.writes());
    }
    n.meters[k] = left;
    n.said = Said {
        answer,
        burnt: 1 + burnt,
    };
}

pub fn scan(s: State, who: u8) -> State
    requires { Sound s }
    ensures { Did result (scan_of (prices_of (view s)) (view s) who) }
{
    let mut n = s;
    match meters::payer(&n, who) {
        Ok(_) => search(&mut n, who),
        Err(why) => refusal::refuse(&mut n, who, why),
    }
    n
}
