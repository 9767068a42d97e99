// One request as a slot of the queue holds it; tests of lent lists, and what is stored of them; when two entries conflict.
#![tactic(auto)]

ghost use Rattle.std.specs.Prelude.{◌≡◌, ◌&&◌, map, ◌≤◌, ◌<◌, min, ltb, length, take};
ghost use Rattle.rules.specs.Records.{member, rising, meets, only_read};
ghost use Rattle.rules.specs.Request.{requested, reduced, size as size_of, conflict, conflicts_any, promoted as promoted_of, delivered as delivered_of};
ghost use Rattle.rules.specs.Calls.{named as named_of};
ghost use Rattle.entry.specs.Entry.{no_entry, request, with_serial, Tidy, Stands, Kept, Sieves};

use rules::{Answer, Mode};

// `serial` stands first: an entry then takes 24 bytes, and not 26. Each list is an array of 8 with its count beside it, since the
// memory is fixed: `reads` and `writes` lend the part that is in use. `Tidy` is a clause of those that make an entry of another, and
// no invariant of the type: `clear_by_maps` and `VerdictsAgree` ask nothing of an entry.
#[derive(Clone, Copy)]
pub struct Entry {
    pub serial: u16,
    pub tenant: u8,
    pub mode: Mode,
    pub awaited: u8,
    pub due: u8,
    pub nr: u8,
    pub nw: u8,
    pub reads: [u8; 8],
    pub writes: [u8; 8],
}

impl Entry {
    // The entry of an unused slot.
    #[tactic(auto, unfolding(crate::specs::Entry::no_entry))]
    pub fn empty() -> Entry
        ensures { result ≡ no_entry }
    {
        Entry {
            serial: 0,
            tenant: 0,
            mode: Mode::Free,
            awaited: 0,
            due: 0,
            nr: 0,
            nw: 0,
            reads: [0; 8],
            writes: [0; 8],
        }
    }

    // An entry made from lent lists, as it is asked for: with the reduced lists, and no serial yet.
    pub fn made(tenant: u8, awaited: u8, reads: &[u8], writes: &[u8]) -> Entry
        requires reads_len_bound { length reads.now ≤ 8 }
        requires writes_len_bound { length writes.now ≤ 8 }
        ensures { Stands (reduced (requested tenant 0 awaited reads.now writes.now)) result }
    {
        let Sieved { n: nr, list: reads } = only_read(reads, writes);
        let nw = writes.len() as u8;
        let writes = kept(writes);
        Entry {
            serial: 0,
            tenant,
            mode: Mode::Blocked,
            awaited,
            due: awaited,
            nr,
            nw,
            reads,
            writes,
        }
    }

    // The records that the entry reads.
    pub fn reads(&self) -> &[u8]
        ensures value { result.now ≡ (request self.now).reads }
        ensures few { length result.now ≤ 8 }
    {
        &self.reads[..few(self.nr)]
    }

    // The records that the entry writes.
    pub fn writes(&self) -> &[u8]
        ensures value { result.now ≡ (request self.now).writes }
        ensures few { length result.now ≤ 8 }
    {
        &self.writes[..few(self.nw)]
    }

    // The number of records, reads and writes together.
    #[tactic(auto, unfolding(rules::specs::Request::size))]
    pub fn size(&self) -> usize
        ensures value { result ≡ size_of (request self.now) }
        ensures upper_bound { result ≤ 16 }
    {
        self.reads().len() + self.writes().len()
    }

    // Whether both lists are strictly rising.
    pub fn lists_rise(&self) -> bool
        ensures { result ≡ (rising (request self.now).reads && rising (request self.now).writes) }
    {
        rises(self.reads()) && rises(self.writes())
    }

    // The entry once its serial is given.
    pub fn numbered(self, serial: u16) -> Entry
        requires { Tidy self }
        ensures { Stands (with_serial (request self) serial) result }
    {
        Entry { serial, ..self }
    }

    // The entry once it is promoted: Waiting only if an answer is still due, otherwise Free.
    #[tactic(auto, unfolding(rules::specs::Request::promoted))]
    pub fn promoted(self) -> Entry
        requires { Tidy self }
        ensures { Stands (promoted_of (request self)) result }
    {
        let mode = if 0 < self.due {
            Mode::Waiting
        } else {
            Mode::Free
        };
        Entry { mode, ..self }
    }

    // The entry once a remote answer has come: a Waiting one with none left due becomes Free.
    #[tactic(auto, unfolding(rules::specs::Request::delivered))]
    pub fn delivered(self) -> Entry
        requires tidy { Tidy self }
        requires due_nonzero { 0 < self.due }
        ensures { Stands (delivered_of (request self)) result }
    {
        let due = self.due - 1;
        let mode = if self.mode == Mode::Waiting && due == 0 {
            Mode::Free
        } else {
            self.mode
        };
        Entry { mode, due, ..self }
    }

    // The answer with the entry's state and its name.
    pub fn named(self) -> Answer
        ensures { result ≡ named_of (request self) }
    {
        Answer::Named(self.mode, self.tenant, self.serial)
    }
}

// A count of records, at most 8, which every entry's is: so what reads an entry asks nothing of it.
fn few(n: u8) -> usize
    ensures { result ≡ min n 8 }
{
    usize::from(n).min(8)
}

// Whether a list has more than 8 records.
pub fn too_many(list: &[u8]) -> bool
    ensures { result ≡ ltb 8 (length list.now) }
{
    8 < list.len()
}

// Whether a list is strictly rising.
pub fn rises(list: &[u8]) -> bool
    ensures { result ≡ rising list.now }
{
    list.is_sorted_by(|a, b| a < b)
}

// Whether a list has a record.
fn holds(list: &[u8], r: u8) -> bool
    ensures { result ≡ member r list.now }
{
    list.contains(&r)
}

// Whether a record stands in both lists: every record of one beside every record of the other, left at the first that both have.
// Document 01: "the comparison stops at the first shared record found", by nested loops that are left by a label.
pub fn meet(xs: &[u8], ys: &[u8]) -> bool
    ensures { result ≡ meets xs.now ys.now }
{
    let mut met = false;
    'pairs: for &x in xs {
        for &y in ys {
            if x == y {
                met = true;
                break 'pairs;
            }
        }
    }
    met
}

// The records of a lent list at the front of an array of 8, the rest zero.
fn kept(list: &[u8]) -> [u8; 8]
    requires { length list.now ≤ 8 }
    ensures { Kept list.now result }
{
    let mut out = [0; 8];
    out[..list.len()].copy_from_slice(list);
    out
}

// Records at the front of an array of 8, and how many they are: as an entry keeps a list, since there is no heap.
#[derive(Clone, Copy)]
struct Sieved {
    n: u8,
    list: [u8; 8],
}

// The reads that are not written, in their order: a record in both lists counts as written only.
fn only_read(reads: &[u8], writes: &[u8]) -> Sieved
    requires { length reads.now ≤ 8 }
    ensures { Sieves (only_read reads.now writes.now) result }
{
    let mut list = [0; 8];
    let mut k = 0;
    for &r in reads {
        if !holds(writes, r) {
            list[k] = r;
            k += 1;
        }
    }
    Sieved { n: k as u8, list }
}

// Whether two entries conflict: some record is written by one of them and read or written by the other. Left at the first.
#[tactic(auto, unfolding(rules::specs::Request::conflict))]
fn pair_conflict(a: &Entry, b: &Entry) -> bool
    ensures { result ≡ conflict (request a.now) (request b.now) }
{
    meet(a.writes(), b.writes()) || meet(a.writes(), b.reads()) || meet(a.reads(), b.writes())
}

// Whether an entry conflicts with one of those ahead of a place, which are lent to the comparison.
pub fn clash_before(entries: &[Entry; 64], at: usize, e: &Entry) -> bool
    requires { at ≤ 64 }
    ensures { result ≡ conflicts_any (map request (take at entries.now)) (request e.now) }
{
    entries[..at].iter().any(|a| pair_conflict(a, e))
}
