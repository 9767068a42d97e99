// What stands at a place of a block's bytes: a list of them, a meter, an entry's row. Numbers have the high byte first.
ghost use Rattle.std.specs.Prelude.{◌≡◌, ◌+◌, ◌≤◌, ◌<◌, length};
ghost use Rattle.meter.specs.View.{meter_view};
ghost use Rattle.block.specs.Clauses.{part, meter_at, row_at};

use meter::Meter;

// The N bytes from a place on.
pub fn part<const N: usize>(b: &[u8], at: usize) -> [u8; N]
    requires { at + N ≤ length b.now }
    ensures { result ≡ part b.now at N }
{
    let mut a = [0; N];
    a.copy_from_slice(&b[at..at + N]);
    a
}

// The meter that stands at a place, from 0.
pub fn meter_at(b: &[u8; 2176], i: usize) -> Meter
    requires { i < 16 }
    ensures { meter_view result ≡ meter_at b.now i }
{
    let at = 22 + i * 6;
    let p = &b[at..at + 6];
    Meter {
        fuel: u32::from_be_bytes([p[0], p[1], p[2], p[3]]),
        serials: u16::from_be_bytes([p[4], p[5]]),
        share: b[3 + i],
    }
}

// The 24 bytes of the entry at a place, from 0.
pub fn row_at(b: &[u8; 2176], i: usize) -> &[u8]
    requires { i < 64 }
    ensures { result.now ≡ row_at b.now i }
{
    let at = 640 + i * 24;
    &b[at..at + 24]
}
