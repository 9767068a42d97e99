// Reading an event file.
ghost use Rattle.std.specs.Prelude.{◌<◌, IfOk, length, take};
ghost use Rattle.std.specs.Io.{ReadsAtMost};
ghost use Rattle.std.specs.Io.KnownBytes.{Consumes, IsAtEnd};

use std::io;
use std::io::Read;

// Reads until the buffer is full or the input ends, and answers how many bytes it put at the buffer's front. With no room it
// calls nothing. (`read_exact` does not tell how many there were before the end, and `read_to_end` needs a heap.)
pub fn read_full<R: Read>(from: &mut R, file: &mut [u8]) -> io::Result<usize>
    ensures bound { ReadsAtMost result file.new }
    ensures read { IfOk result (λ n. Consumes (R.remaining from.old) (R.remaining from.new) (take n file.new)) }
    ensures end { IfOk result (λ n. n < length file.new → IsAtEnd (R.remaining from.new)) }
{
    let mut done = 0;
    while done < file.len() {
        let n = from.read(&mut file[done..])?;
        if n == 0 {
            break;
        }
        done += n;
    }
    Ok(done)
}
