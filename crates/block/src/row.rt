// An entry's 24 bytes: tenant, serial in two, state, awaited, due, the number of reads and of writes, and 16 record bytes.
ghost use Rattle.std.specs.Prelude.{◌≡◌, ◌+◌, ◌≤◌, length, get_or, drop, MatchOption};
ghost use Rattle.block.specs.Clauses.{mode_of, request_in};

use rules::Mode;

// The state of a byte: 0 Free, 1 Waiting, and any other is Blocked.
fn mode_from(x: u8) -> Mode
    ensures { result ≡ mode_of x }
{
    match x {
        0 => Mode::Free,
        1 => Mode::Waiting,
        _ => Mode::Blocked,
    }
}

// Both counts are at most 8, so that the lists lie within the bytes.
#[derive(Clone, Copy)]
pub struct Row<'a> {
    pub bytes: &'a [u8],
    ghost whole: { length bytes.now ≡ 24 },
    ghost few_reads: { get_or bytes.now 6 0 ≤ 8 },
    ghost few_writes: { get_or bytes.now 7 0 ≤ 8 },
}

impl<'a> Row<'a> {
    // None where a count is above 8.
    pub fn new(bytes: &'a [u8]) -> Option<Row<'a>>
        requires { length bytes.now ≡ 24 }
        ensures { MatchOption result ((get_or bytes.now 6 0 ≤ 8) × (get_or bytes.now 7 0 ≤ 8) → ⊥) (λ r. r.bytes.now ≡ bytes.now) }
    {
        if bytes[6] > 8 || bytes[7] > 8 {
            return None;
        }
        Some(Row { bytes })
    }

    pub fn serial(self) -> u16
        ensures { result ≡ (request_in self.entry.bytes.now).serial }
    {
        u16::from_be_bytes([self.bytes[1], self.bytes[2]])
    }

    pub fn mode(self) -> Mode
        ensures { result ≡ mode_of (get_or self.entry.bytes.now 3 0) }
    {
        mode_from(self.bytes[3])
    }

    // Where the writes begin.
    fn mid(self) -> usize
        ensures { result ≡ 8 + get_or self.entry.bytes.now 6 0 }
    {
        8 + usize::from(self.bytes[6])
    }

    // Where the unused records begin.
    fn end(self) -> usize
        ensures { result ≡ 8 + get_or self.entry.bytes.now 6 0 + get_or self.entry.bytes.now 7 0 }
    {
        self.mid() + usize::from(self.bytes[7])
    }

    pub fn reads(self) -> &'a [u8]
        ensures records { result.now ≡ (request_in self.entry.bytes.now).reads }
        ensures few { length result.now ≤ 8 }
    {
        &self.bytes[8..self.mid()]
    }

    pub fn writes(self) -> &'a [u8]
        ensures records { result.now ≡ (request_in self.entry.bytes.now).writes }
        ensures few { length result.now ≤ 8 }
    {
        &self.bytes[self.mid()..self.end()]
    }

    // What stands behind the lists.
    pub fn unused(self) -> &'a [u8]
        ensures { result.now ≡ drop (8 + get_or self.entry.bytes.now 6 0 + get_or self.entry.bytes.now 7 0) self.entry.bytes.now }
    {
        &self.bytes[self.end()..]
    }
}
