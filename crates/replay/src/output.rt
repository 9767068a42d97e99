// A place to write to that knows whether its reader has gone.
ghost use Rattle.std.specs.Prelude.{◌≡◌, ◌↔◌, ◌⊎◌, true, IsErrAnd};
ghost use Rattle.std.specs.Io.{WritesAtMost};
ghost use Rattle.std.specs.Io.KnownBytes.{WriteAppends};
ghost use Rattle.std.specs.IoError.{error_kind};

use std::io;
use std::io::{ErrorKind, Write};

// Where nobody reads any more a write fails with `BrokenPipe`: a program runs with SIGPIPE ignored, and is not ended by it.
#[derive(Drop)]
pub struct Watched<W> {
    pub to: W,
    // whether a write failed so
    pub unread: bool,
}

impl<W: Write> Write for Watched<W> {
    ghost contents = { λ s. W.contents s.to };

    fn write(&mut self, buf: &[u8]) -> io::Result<usize>
        ensures bound { WritesAtMost result buf.now }
        ensures bytes { WriteAppends (W.contents self.old.to) (W.contents self.new.to) result buf.now }
        ensures unread { (self.new.unread ≡ true) ↔
            ((self.old.unread ≡ true) ⊎ IsErrAnd result (λ e. error_kind e ≡ ErrorKind.BrokenPipe)) }
    {
        let written = self.to.write(buf);
        if let Err(e) = &written {
            if e.kind() == ErrorKind::BrokenPipe {
                self.unread = true;
            }
        }
        written
    }

    fn flush(&mut self) -> io::Result<()> {
        self.to.flush()
    }
}
