// A listing in pieces: as many lines as fit the bytes that a program lends, and then the next.
ghost use Rattle.std.specs.Prelude.{◌≡◌, ◌++◌, ◌+◌, ◌≤◌, take};
ghost use Rattle.std.proofs.Math.Seq.{paste};
ghost use Rattle.replay.specs.Replay.{listing_of};
ghost use Rattle.replay.specs.Pieces.{Ready, Piece, Onward, rest};

use listing::{Line, Name};
use manager::State;
use rules::{Answer, Refusal};

// The place that a listing has come to: the state, where the next record begins (None where there is no more to list), whether
// it is the first, and its number; and how many bytes of the piece are written.
#[derive(Clone, Copy)]
pub struct Place {
    pub state: State,
    pub at: Option<usize>,
    pub first: bool,
    pub number: u32,
    pub len: usize,
}

// The line's bytes, at a place of the piece. All 64 are copied, of which the next line overwrites what is not the line's.
fn put(out: &mut [u8; 65536], at: usize, l: Line)
    requires { at + 64 ≤ 65_536 }
    ensures { out.new ≡ paste out.old at l.bytes 64 }
{
    out[at..at + 64].copy_from_slice(&l.bytes);
}

// One step, at the record that begins at `at`: its line is put behind the piece.
fn advanced(p: Place, at: usize, bytes: &[u8], out: &mut [u8; 65536]) -> Place
    requires ready { Ready bytes.now p }
    requires here { p.at ≡ Some at }
    requires len_bound { p.len + 64 ≤ 65_536 }
    ensures piece { Piece bytes.now (take p.len out.old ++ rest bytes.now p) out.new result }
    ensures onward { Onward p result }
{
    let r = crate::step(p.state, bytes, at, p.first, p.number);
    put(out, p.len, r.line);
    Place {
        state: r.state,
        at: r.next,
        first: false,
        number: p.number + 1,
        len: p.len + r.line.len,
    }
}

// The next piece: lines until there is no room for another, or no more.
pub fn filled(p: Place, bytes: &[u8], out: &mut [u8; 65536]) -> Place
    requires { Ready bytes.now p }
    ensures piece { Piece bytes.now (rest bytes.now p) out.new result }
    ensures onward { Onward p result }
{
    let mut q = Place { len: 0, ..p };
    while let Some(at) = q.at {
        if 65_472 < q.len {
            break;
        }
        q = advanced(q, at, bytes, out);
    }
    q
}

// The first piece: the header, and where the file is too long the refusal.
pub fn opened(bytes: &[u8], out: &mut [u8; 65536]) -> Place
    ensures { Piece bytes.now (listing_of bytes.now) out.new result }
{
    let header = listing::header();
    put(out, 0, header);
    let mut p = Place {
        state: crate::start(),
        at: Some(0),
        first: true,
        number: 1,
        len: header.len,
    };
    if events::too_long(bytes) {
        let why = Answer::Refused(Refusal::TooLong.number());
        let line = listing::line_of(1, Name::File, why, 0, None);
        put(out, header.len, line);
        p.at = None;
        p.len += line.len;
    }
    p
}
