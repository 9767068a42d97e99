// Prints the listings of the files 00, 01, .. of its folder, one behind the other, until there is no such file, or until a
// listing cannot be written, which it says on standard error; but where nobody reads them any more it says nothing, and ends with
// 141, as a program does that SIGPIPE ends. It is run in a copy of data/.
#![tactic(auto)]

ghost use Rattle.std.specs.Prelude.{◌<◌};

use replay::output::Watched;
use std::io::{Read, Write};
use std::process::ExitCode;
use std::{fs, io, str};

// The last digit of a number, in ASCII: there is no heap for a `format!`.
fn digit(n: u8) -> u8
    ensures { result < 128 }
{
    b'0' + n % 10
}

// What is said where a listing cannot be written.
fn tell(rt: &impl Eprint) -> io::Result<()> {
    eprintln!(rt; "cases: a listing could not be written")
}

// Prints the listing of what a file gives, and answers whether all of it was written. One byte past 65,536 is enough to know that
// a file is too long.
fn listed<R: Read, W: Write>(from: &mut R, to: &mut W) -> io::Result<bool> {
    let mut file = [0u8; 65537];
    let n = replay::input::read_full(from, &mut file)?;
    Ok(replay::print::listing(to, &file[..n]).is_ok())
}

fn main(rt: HostRuntime) -> io::Result<ExitCode> {
    let mut to = Watched {
        to: rt.stdout(),
        unread: false,
    };
    for n in 0..100u8 {
        let path = [digit(n / 10), digit(n)];
        let Ok(mut file) = fs::open(&rt, str::from_utf8(&path).unwrap()) else {
            break;
        };
        let written = listed(&mut file, &mut to)?;
        if to.unread {
            return Ok(ExitCode::from(141));
        }
        if !written {
            tell(&rt)?;
            break;
        }
    }
    Ok(ExitCode::SUCCESS)
}
