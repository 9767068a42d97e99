// The block of a state, written from front to back.
ghost use Rattle.std.specs.Prelude.{◌≡◌, [], ◌∷◌, ◌++◌, map, ℕ, ◌+◌, ◌-◌, ◌*◌, ◌≤◌, ◌<◌, length, get_or, take, replicate};
ghost use Rattle.std.proofs.Math.Seq.{paste};
ghost use Rattle.entry.specs.Entry.{request, blank, Tidy};
ghost use Rattle.meter.specs.View.{meter_view};
ghost use Rattle.manager.specs.State.{view, Sound};
ghost use Rattle.block.specs.Bytes.{code, padded, entry_bytes, meter_bytes, share_byte, head};
ghost use Rattle.block.specs.Block.{flat, block_of};

use entry::Entry;
use manager::State;
use meter::Meter;
use rules::Mode;

// The byte of a state.
pub fn mode_byte(m: Mode) -> u8
    ensures { result ≡ code m }
{
    m as u8
}

// The six bytes of a meter.
fn meter_bytes(m: Meter) -> [u8; 6]
    ensures { result ≡ meter_bytes (meter_view m) }
{
    let [a, b, c, d] = m.fuel.to_be_bytes();
    let [e, f] = m.serials.to_be_bytes();
    [a, b, c, d, e, f]
}

// Writes bytes at a place, and leaves the rest.
fn put(b: &mut [u8], at: usize, p: &[u8])
    requires { at + length p.now ≤ length b.old }
    ensures { b.new ≡ paste b.old at p.now (length p.now) }
{
    b[at..at + p.len()].copy_from_slice(p);
}

// Shares, meters and entries have a loop each: one for all would ask a closure for an element's bytes, and Rattle covers no bound
// `Fn(&T) -> [u8; W]` with a const parameter; an entry is also written in two parts.
fn put_shares(b: &mut [u8; 2176], meters: &[Meter; 16])
    ensures { take 19 b.new ≡ take 3 b.old ++ flat share_byte (map meter_view meters.now) }
{
    for (i, m) in meters.iter().enumerate() {
        put(b, 3 + i, &[m.share]);
    }
}

fn put_meters(b: &mut [u8; 2176], meters: &[Meter; 16])
    ensures { take 118 b.new ≡ take 22 b.old ++ flat meter_bytes (map meter_view meters.now) }
{
    for (i, m) in meters.iter().enumerate() {
        put(b, 22 + i * 6, &meter_bytes(*m));
    }
}

// Writes fields 11 and 12.
fn put_tenants(b: &mut [u8; 2176], meters: &[Meter; 16])
    ensures { take 118 b.new ≡ head 17 16 ++ flat share_byte (map meter_view meters.now) ++ head 18 96 ++ flat meter_bytes (map meter_view meters.now) }
{
    put(b, 0, &[17, 0, 16]);
    put_shares(b, meters);
    put(b, 19, &[18, 0, 96]);
    put_meters(b, meters);
}

// Writes a field of counters.
fn put_counters(b: &mut [u8], at: usize, tag: u8, c: &[u8; 256])
    requires { at + 259 ≤ length b.old }
    ensures { take (at + 3 + 256) b.new ≡ take at b.old ++ head tag 256 ++ c.now }
{
    put(b, at, &[tag, 1, 0]);
    put(b, at + 3, c);
}

// Writes the 16 record bytes of an entry. Both lists are written whole, with the zeros behind them, and the writes come last,
// over the zeros behind the reads: a copy of so many bytes as a count says takes longer.
fn put_lists(b: &mut [u8], at: usize, e: &Entry)
    requires at_in_bounds { at + 16 ≤ length b.old }
    requires tidy { Tidy e.now }
    ensures { take (at + 16) b.new ≡ take at b.old ++ padded 16 ((request e.now).reads ++ (request e.now).writes) }
{
    put(b, at, &e.reads);
    put(b, at + 8, &[0; 8]);
    put(b, at + usize::from(e.nr), &e.writes);
}

// Writes the 24 bytes of an entry.
fn put_entry(b: &mut [u8], at: usize, e: &Entry)
    requires at_in_bounds { at + 24 ≤ length b.old }
    requires tidy { Tidy e.now }
    ensures { take (at + 24) b.new ≡ take at b.old ++ entry_bytes (request e.now) }
{
    let [high, low] = e.serial.to_be_bytes();
    let mode = mode_byte(e.mode);
    put(
        b,
        at,
        &[e.tenant, high, low, mode, e.awaited, e.due, e.nr, e.nw],
    );
    put_lists(b, at + 8, e);
}

// Writes the entries in use, one behind the other.
fn put_entries(b: &mut [u8; 2176], entries: &[Entry])
    requires few { length entries.now ≤ 64 }
    requires tidy { (i : ℕ) → i < length entries.now → Tidy (get_or entries.now i blank) }
    ensures { take (640 + length entries.now * 24) b.new ≡ take 640 b.old ++ flat entry_bytes (map request entries.now) }
{
    for (i, e) in entries.iter().enumerate() {
        put_entry(b, 640 + i * 24, e);
    }
}

// Writes field 15: the entries in use, and zeros behind them to the end.
fn put_queue(b: &mut [u8; 2176], entries: &[Entry])
    requires few { length entries.now ≤ 64 }
    requires tidy { (i : ℕ) → i < length entries.now → Tidy (get_or entries.now i blank) }
    ensures { b.new ≡ take 636 b.old ++ (head 21 1_537 ++ length entries.now ∷ []) ++ flat entry_bytes (map request entries.now) ++ replicate (2176 - (640 + length entries.now * 24)) 0 }
{
    let n = entries.len();
    put(b, 636, &[21, 6, 1, n as u8]);
    put_entries(b, entries);
    b[640 + n * 24..].fill(0);
}

// Writes the state.
pub fn state(b: &mut [u8], s: State)
    requires sound { Sound s }
    requires b_len { length b.old ≡ 2176 }
    ensures { b.new ≡ block_of (view s) }
{
    let Some(b) = b.as_mut_array() else {
        // The caller lends 2,176 bytes: `b_len` asks for them.
        unreachable!();
    };
    put_tenants(b, &s.meters);
    put_counters(b, 118, 19, &s.cx);
    put_counters(b, 377, 20, &s.cs);
    put_queue(b, &s.entries[..s.count]);
}
