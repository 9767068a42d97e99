// The listing of an event file, written out.
ghost use Rattle.std.specs.Prelude.{◌<◌, ◌≡◌, ℕ, OnOk, OnErr, length, take};
ghost use Rattle.std.specs.Io.KnownBytes.{Appends};
ghost use Rattle.replay.specs.Prints.{Prints, Puts};

use super::piece;
use std::io;
use std::io::{ErrorKind, Write};

// Writes the bytes, up to the first write that fails or takes nothing. It is not `write_all`, whose contract says nothing of
// the bytes that a writer has where it fails, and which tries a write that was interrupted again.
fn write_whole<W: Write>(to: &mut W, bytes: &[u8]) -> io::Result<()>
    ensures whole { OnOk result (Appends (W.contents to.old) (W.contents to.new) bytes.now) }
    ensures part { OnErr result ((n : ℕ) × (n < length bytes.now)
        × Appends (W.contents to.old) (W.contents to.new) (take n bytes.now)) }
{
    let mut done = 0;
    while done < bytes.len() {
        match to.write(&bytes[done..]) {
            Ok(0) => return Err(ErrorKind::WriteZero.into()),
            Ok(n) => done += n,
            // no `?`: the edit failed_write_is_whole changes this arm
            Err(e) => return Err(e),
        }
    }
    Ok(())
}

// Each piece is written whole, up to the first that cannot be. The answer is how many bytes were written in whole pieces: all
// that the listing has, or in an Err fewer. What the operating system does with the bytes no contract can say; it can say that
// all are told to be written only where the pieces that were make up the listing, and which bytes a writer has that keeps them.
pub fn listing<W: Write>(to: &mut W, bytes: &[u8]) -> Result<usize, usize>
    ensures prints { Prints bytes.now result }
    ensures puts { Puts bytes.now (W.contents to.old) (W.contents to.new) result }
{
    let mut out = [0u8; 65536];
    let mut p = piece::opened(bytes, &mut out);
    let mut done = 0;
    loop {
        match write_whole(to, &out[..p.len]) {
            Ok(()) => done += p.len,
            Err(_) => return Err(done),
        }
        if p.at.is_none() {
            return Ok(done);
        }
        p = piece::filled(p, bytes, &mut out);
    }
}
