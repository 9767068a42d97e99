// Begin: a request asks for all its locks at once. Its price is paid now, and that of its release with it.
ghost use Rattle.std.specs.Prelude.{◌≡◌, ◌+◌, ◌*◌};
ghost use Rattle.rules.specs.Request.{requested, reduced, size};
ghost use Rattle.rules.specs.Table.{places_of};
ghost use Rattle.rules.specs.Prices.{prices_of};
ghost use Rattle.rules.specs.Refusals.{begin_rows};
ghost use Rattle.rules.specs.Calls.{begin_of};
ghost use Rattle.entry.specs.Entry.{request, Tidy, Stands};
ghost use Rattle.manager.specs.State.{view, Sound, Tied, Did};
ghost use Rattle.manager.specs.Rows.{RefusedOr};
ghost use Rattle.manager.specs.Deeds.{AdmittedBy};

use super::{meters, refusal};
use crate::{Said, State};
use entry::Entry;
use maps::Maps;
use rules::{Answer, Refusal};

// The price of a request: 1 + n now and 1 + n for the release.
fn price(e: &Entry) -> u32
    ensures { result ≡ 2 + 2 * size (request e.now) }
{
    2 + 2 * e.size() as u32
}

// The places that a tenant holds.
fn places(s: &State, who: u8) -> usize
    requires { Tied s.now }
    ensures { result ≡ places_of (view s.now).queue who }
{
    s.entries[..s.count]
        .iter()
        .filter(|e| e.tenant == who)
        .count()
}

// Refusals 1 to 9 in number order, but for 5, which is no longer given; where none applies, the entry that is asked for, with the
// reduced lists and no serial yet.
fn judged(s: &State, who: u8, awaited: u8, reads: &[u8], writes: &[u8]) -> Result<Entry, Refusal>
    requires { Sound s.now }
    ensures { RefusedOr (begin_rows (prices_of (view s.now)) (view s.now) (requested who 0 awaited reads.now writes.now))
        (Stands (reduced (requested who 0 awaited reads.now writes.now))) result }
{
    let m = meters::payer(s, who)?;
    if entry::too_many(reads) || entry::too_many(writes) {
        return Err(Refusal::TooMany);
    }
    let e = Entry::made(who, awaited, reads, writes);
    if !e.lists_rise() {
        return Err(Refusal::NotRising);
    }
    if 15 < awaited {
        return Err(Refusal::TooManyAwaited);
    }
    if m.share as usize <= places(s, who) {
        return Err(Refusal::NoPlace);
    }
    if 65_535 <= m.serials {
        return Err(Refusal::NoSerial);
    }
    if m.fuel < price(&e) {
        return Err(Refusal::TooDear);
    }
    Ok(e)
}

// The entry that joins, and what Begin answers: Blocked where there is a record that it clashes on, which is reported, and
// promoted where there is none.
fn admitted(low: Option<u8>, e: Entry) -> (Entry, Answer)
    requires { Tidy e }
    ensures { AdmittedBy low (request e) result }
{
    match low {
        Some(r) => (e, Answer::BlockedOn(e.tenant, e.serial, r)),
        None => {
            let p = e.promoted();
            (p, p.named())
        }
    }
}

pub fn begin(s: State, who: u8, awaited: u8, reads: &[u8], writes: &[u8]) -> State
    requires { Sound s }
    ensures { Did result (begin_of (prices_of (view s)) (view s) who awaited reads.now writes.now) }
{
    let mut n = s;
    let wanted = match judged(&n, who, awaited, reads, writes) {
        Ok(e) => e,
        Err(why) => {
            refusal::refuse(&mut n, who, why);
            return n;
        }
    };
    let k = (who - 1) as usize;
    let cost = price(&wanted);
    let given = meter::numbered(n.meters[k]);
    n.meters[k] = meter::charged(given, cost);
    let e = wanted.numbered(given.serials);
    let mut own = Maps::none();
    counters::raise(&mut n.cx, &mut own.written, e.writes());
    counters::raise(&mut n.cs, &mut own.read, e.reads());
    // judged before its own counts: the state's maps are still those of the entries ahead
    let low = own.lowest_clash(&n.maps);
    n.maps.join(&own);
    let (joins, answer) = admitted(low, e);
    n.entries[n.count] = joins;
    n.count += 1;
    n.said = Said {
        answer,
        burnt: cost,
    };
    n
}
