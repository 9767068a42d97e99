// The counters of the records, Cx or Cs: one for each record. They are lent: raised where a request joins, lowered where it
// leaves; and the verdicts that are told from them.
#![tactic(auto)]

ghost use Rattle.std.specs.Prelude.{◌≡◌, ◌≤◌, ◌<◌, eqb, ltb, length};
ghost use Rattle.rules.specs.Lists.{some, every};
ghost use Rattle.rules.specs.Request.{requested};
ghost use Rattle.rules.specs.Counters.{figure2, alone as alone_by};
ghost use Rattle.maps.specs.Maps.{Grown};
ghost use Rattle.entry.specs.Entry.{request};
ghost use Rattle.counters.specs.Counters.{at, Raised, Under, Stocked, Marks};

use entry::Entry;

// Adds one at each record of a lent list.
pub fn raise_each(counters: &mut [u8; 256], list: &[u8])
    requires list_len_bound { length list.now ≤ 8 }
    requires under { Under 65 counters.old }
    ensures { Raised counters.old list.now counters.new }
{
    for &r in list {
        counters[r as usize] += 1;
    }
}

// Adds one at each record of a lent list, and these records to a map. One loop for both: a loop for the counters and then one for
// the map made a Begin slower by a sixth.
pub fn raise(counters: &mut [u8; 256], map: &mut [u64; 4], list: &[u8])
    requires list_len_bound { length list.now ≤ 8 }
    requires under { Under 65 counters.old }
    ensures raised { Raised counters.old list.now counters.new }
    ensures grown { Grown map.old list.now map.new }
{
    for &r in list {
        let k = r as usize;
        counters[k] += 1;
        maps::put(map, r);
    }
}

// Takes one at each record of a lent list, at each of which there is one to take. A record whose counter comes to 0 leaves the
// map of those above 0.
pub fn lower(counters: &mut [u8; 256], map: &mut [u64; 4], list: &[u8])
    requires stocked { Stocked counters.old list.now }
    requires marks { Marks map.old counters.old }
    ensures raised { Raised counters.new list.now counters.old }
    ensures marks_2 { Marks map.new counters.new }
{
    for &r in list {
        let k = r as usize;
        counters[k] -= 1;
        if counters[k] == 0 {
            maps::remove(map, r);
        }
    }
}

// Whether one of the records of a lent list has a counter above a number.
fn some_above(counters: &[u8; 256], list: &[u8], floor: u8) -> bool
    ensures { result ≡ some (λ k. ltb floor (at counters.now k)) list.now }
{
    list.iter().any(|&r| floor < counters[r as usize])
}

// Whether each record of a lent list has a counter of a given value.
fn all_equal(counters: &[u8; 256], list: &[u8], value: u8) -> bool
    ensures { result ≡ every (λ k. eqb (at counters.now k) value) list.now }
{
    list.iter().all(|&r| counters[r as usize] == value)
}

// Figure 2's verdict on a request's lists, its own counts being in: a read clashes if Cx is above 0, a write if Cx is above 1
// or Cs above 0.
pub fn clash(cx: &[u8; 256], cs: &[u8; 256], reads: &[u8], writes: &[u8]) -> bool
    ensures { result ≡ figure2 (at cx.now) (at cs.now) (requested 0 0 0 reads.now writes.now) }
{
    some_above(cx, reads, 0) || some_above(cx, writes, 1) || some_above(cs, writes, 0)
}

// Recheck's condition: every written record has Cx = 1 and Cs = 0, and every read record has Cx = 0.
pub fn alone(cx: &[u8; 256], cs: &[u8; 256], e: &Entry) -> bool
    ensures { result ≡ alone_by (at cx.now) (at cs.now) (request e.now) }
{
    all_equal(cx, e.writes(), 1) && all_equal(cs, e.writes(), 0) && all_equal(cx, e.reads(), 0)
}
