// Whether a block is sound.
ghost use Rattle.std.specs.Prelude.{◌≡◌, ◌||◌, not, [], ◌∷◌, ◌+◌, ◌*◌, ◌≤◌, ◌<◌, length, get_or, replicate, MatchOption};
ghost use Rattle.rules.specs.Request.{is_blocked};
ghost use Rattle.rules.specs.Counters.{figure2};
ghost use Rattle.counters.specs.Counters.{at, Raised, Under};
ghost use Rattle.block.specs.Block.{SoundBlock};
ghost use Rattle.block.specs.Clauses.{part, request_in, count_in, Heads, Suits};
ghost use Rattle.block.specs.Check.{Tells, MetersFit, NumbersFit, ListsFit, RowFits, QueueFits};

use super::bytes;
use super::row::Row;
use rules::Mode;

// Whether a field's head, its tag and its length in two bytes, stands at a place.
fn head(b: &[u8], at: usize, bytes: [u8; 3]) -> bool
    requires { at + 3 ≤ length b.now }
    ensures { Tells result (part b.now at 3 ≡ bytes) }
{
    bytes::part(b, at) == bytes
}

// Whether each field has its head.
fn heads(b: &[u8; 2176]) -> bool
    ensures { Tells result (Heads b.now) }
{
    head(b, 0, [17, 0, 16])
        && head(b, 19, [18, 0, 96])
        && head(b, 118, [19, 1, 0])
        && head(b, 377, [20, 1, 0])
        && head(b, 636, [21, 6, 1])
}

// Whether all bytes are zero. It looks at every one and has no way out on the way, so that many are looked at together.
fn zeros(p: &[u8]) -> bool
    ensures { Tells result (p.now ≡ replicate (length p.now) 0) }
{
    let mut any = 0;
    for x in p {
        any |= *x;
    }
    any == 0
}

// Whether two lists of bytes of one length are the same.
fn same(x: &[u8], y: &[u8]) -> bool
    requires { length x.now ≡ length y.now }
    ensures { Tells result (x.now ≡ y.now) }
{
    x == y
}

// Shares sum to at most 64, and no fuel is above its limit.
fn tenants(b: &[u8; 2176]) -> bool
    ensures { Tells result (MetersFit b.now) }
{
    let mut places = 0;
    for i in 0..16 {
        let m = bytes::meter_at(b, i);
        if m.fuel > 1_000_000_000 {
            return false;
        }
        places += u32::from(m.share);
    }
    places <= 64
}

// A Free entry has nothing due, a Waiting one an answer due, a Blocked one n above 0.
fn suits(mode: Mode, due: u8, n: u8) -> bool
    ensures { Tells result (Suits mode due n) }
{
    match mode {
        Mode::Free => due == 0,
        Mode::Waiting => 0 < due,
        Mode::Blocked => 0 < n,
    }
}

// The clauses on an entry's numbers.
fn numbers_fit(row: Row) -> bool
    ensures { Tells result (NumbersFit row.entry.bytes.now) }
{
    let p = row.bytes;
    if p[0] < 1 || p[0] > 16 || p[4] > 15 || p[5] > p[4] || p[3] > 2 {
        return false;
    }
    suits(row.mode(), p[5], p[6] + p[7])
}

// The clauses on an entry's lists, and its unused records.
fn lists_fit(row: Row) -> bool
    ensures { Tells result (ListsFit row.entry.bytes.now) }
{
    let reads = row.reads();
    let writes = row.writes();
    if !entry::rises(reads) || !entry::rises(writes) || entry::meet(reads, writes) {
        return false;
    }
    let unused = row.unused();
    unused.is_empty() || zeros(unused)
}

// The row of an entry's 24 bytes, if it fits by what these tell by themselves.
fn fitting(p: &[u8]) -> Option<Row<'_>>
    requires { length p.now ≡ 24 }
    ensures { MatchOption result (RowFits p.now → ⊥) (λ r. (r.bytes.now ≡ p.now) × RowFits p.now) }
{
    let row = Row::new(p)?;
    if !numbers_fit(row) || !lists_fit(row) {
        return None;
    }
    Some(row)
}

// Whether an entry is Blocked, or conflicts with none ahead, told from the counters of those ahead and its own.
fn clear(cx: &[u8; 256], cs: &[u8; 256], row: Row) -> bool
    ensures { result ≡ (is_blocked (request_in row.entry.bytes.now).mode || not (figure2 (at cx.now) (at cs.now) (request_in row.entry.bytes.now))) }
{
    if row.mode() == Mode::Blocked {
        return true;
    }
    !counters::clash(cx, cs, row.reads(), row.writes())
}

// Whether a serial is above its tenant's last, one that was given, and a place of the share is left for it.
fn follows(serial: u16, last: u16, given: u16, left: u8) -> bool
    ensures { Tells result ((last < serial) × (serial ≤ given) × (0 < left)) }
{
    last < serial && serial <= given && 0 < left
}

// Counts an entry's records: its writes in Cx, its reads in Cs.
fn count(cx: &mut [u8; 256], cs: &mut [u8; 256], row: Row)
    requires under { Under 65 cx.old }
    requires under_2 { Under 65 cs.old }
    ensures raised { Raised cx.old (request_in row.entry.bytes.now).writes cx.new }
    ensures raised_2 { Raised cs.old (request_in row.entry.bytes.now).reads cs.new }
{
    counters::raise_each(cx, row.writes());
    counters::raise_each(cs, row.reads());
}

// One pass over the entries: what each tells by itself; its serial above its tenant's last, and one that was given; a place
// left of its tenant's share; and, its records counted, no conflict with one ahead unless it is Blocked. At the end the counters
// are the block's.
fn entries(b: &[u8; 2176], n: usize) -> bool
    requires n_value { n ≡ count_in b.now }
    requires n_bound { n ≤ 64 }
    ensures { Tells result (QueueFits b.now) }
{
    let mut last = [0; 16];
    let mut left: [u8; 16] = bytes::part(b, 3);
    let mut cx = [0; 256];
    let mut cs = [0; 256];
    for i in 0..n {
        let Some(row) = fitting(bytes::row_at(b, i)) else {
            return false;
        };
        let k = usize::from(row.bytes[0]) - 1;
        let serial = row.serial();
        if !follows(serial, last[k], bytes::meter_at(b, k).serials, left[k]) {
            return false;
        }
        last[k] = serial;
        left[k] -= 1;
        count(&mut cx, &mut cs, row);
        if !clear(&cx, &cs, row) {
            return false;
        }
    }
    same(&cx, &b[121..377]) && same(&cs, &b[380..636])
}

// Whether bytes, any number of them, are a sound block.
pub fn sound(b: &[u8]) -> bool
    ensures { Tells result (SoundBlock b.now) }
{
    let Some(b) = b.as_array() else {
        return false;
    };
    if !heads(b) || !tenants(b) {
        return false;
    }
    let n = usize::from(b[639]);
    if n > 64 || !zeros(&b[640 + n * 24..]) {
        return false;
    }
    entries(b, n)
}
