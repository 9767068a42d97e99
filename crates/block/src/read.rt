// What stands in the bytes of a block.
ghost use Rattle.std.specs.Prelude.{◌≡◌, map, ◌+◌, ◌≤◌, ◌<◌, length};
ghost use Rattle.maps.specs.Maps.{Grown};
ghost use Rattle.entry.specs.Entry.{Stands, Kept};
ghost use Rattle.meter.specs.View.{meter_view};
ghost use Rattle.queue.specs.Queue.{Holds as Slots};
ghost use Rattle.block.specs.Block.{SoundBlock};
ghost use Rattle.block.specs.Clauses.{part, request_in, meters_in, count_in, row_at, queue_in};
ghost use Rattle.block.specs.Read.{Holds, MapsOf};

use super::bytes;
use super::row::Row;
use entry::Entry;
use manager::{Said, State};
use maps::Maps;
use meter::Meter;
use rules::Answer;

// The n records from a place on at the front of an array of 8, the rest zero. It goes to 8 whatever n is: a copy of so many
// bytes as n says takes longer.
fn list(p: &[u8], at: usize, n: usize) -> [u8; 8]
    requires n_bound { n ≤ 8 }
    requires at_in_bounds { at + 8 ≤ length p.now }
    ensures { Kept (part p.now at n) result }
{
    let mut out = [0; 8];
    for k in 0..8 {
        if k < n {
            out[k] = p[at + k];
        }
    }
    out
}

// The entry of a row.
fn entry_from(row: Row) -> Entry
    ensures { Stands (request_in row.entry.bytes.now) result }
{
    let p = row.bytes;
    let nr = usize::from(p[6]);
    let nw = usize::from(p[7]);
    Entry {
        serial: row.serial(),
        tenant: p[0],
        mode: row.mode(),
        awaited: p[4],
        due: p[5],
        nr: p[6],
        nw: p[7],
        reads: list(p, 8, nr),
        writes: list(p, 8 + nr, nw),
    }
}

// The row of an entry in use.
fn row_in(b: &[u8; 2176], i: usize) -> Row<'_>
    requires sound_block { SoundBlock b.now }
    requires used { i < count_in b.now }
    ensures { result.bytes.now ≡ row_at b.now i }
{
    Row {
        bytes: bytes::row_at(b, i),
    }
}

fn meters_from(b: &[u8; 2176]) -> [Meter; 16]
    ensures { map meter_view result ≡ meters_in b.now }
{
    let mut a = [meter::fresh(0); 16];
    for i in 0..16 {
        a[i] = bytes::meter_at(b, i);
    }
    a
}

// The entries in use, unused slots behind them.
fn entries_from(b: &[u8; 2176], n: usize) -> [Entry; 64]
    requires sound_block { SoundBlock b.now }
    requires n_value { n ≡ count_in b.now }
    ensures { Slots (queue_in b.now) (record { count = n; entries = result }) }
{
    let mut a = [Entry::empty(); 64];
    for i in 0..n {
        a[i] = entry_from(row_in(b, i));
    }
    a
}

// The maps of the records that the entries write, and that they read. They are not stored: they are made anew from the entries.
fn maps_from(b: &[u8; 2176], n: usize) -> Maps
    requires sound_block { SoundBlock b.now }
    requires n_value { n ≡ count_in b.now }
    ensures { MapsOf (queue_in b.now) result.written result.read }
{
    let mut maps = Maps::none();
    for i in 0..n {
        let row = row_in(b, i);
        maps.add(row.reads(), row.writes());
    }
    maps
}

// The state of a sound block, in which nothing is said yet.
pub fn state(b: &[u8]) -> State
    requires { SoundBlock b.now }
    ensures { Holds b.now result }
{
    let Some(b) = b.as_array() else {
        // A sound block is the block of a sound table, and each of these has 2,176 bytes.
        unreachable!();
    };
    let count = usize::from(b[639]);
    State {
        cx: bytes::part(b, 121),
        cs: bytes::part(b, 380),
        maps: maps_from(b, count),
        meters: meters_from(b),
        count,
        entries: entries_from(b, count),
        said: Said {
            answer: Answer::Nothing,
            burnt: 0,
        },
    }
}
