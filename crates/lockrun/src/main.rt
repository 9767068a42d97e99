// Prints the listing of the event file on standard input. It says on standard error where the listing could not be written, and
// bin/lockrun ends with 1 then. Where nobody reads the listing any more it says nothing, and ends with 141, as a program does that
// SIGPIPE ends.
#![tactic(auto)]

use replay::output::Watched;
use std::io;
use std::process::ExitCode;

fn main(rt: HostRuntime) -> io::Result<ExitCode> {
    // one byte past 65,536 is enough to know that a file is too long
    let mut file = [0u8; 65537];
    let n = replay::input::read_full(&mut rt.stdin(), &mut file)?;
    let mut to = Watched {
        to: rt.stdout(),
        unread: false,
    };
    let printed = replay::print::listing(&mut to, &file[..n]);
    if to.unread {
        return Ok(ExitCode::from(141));
    }
    if printed.is_err() {
        eprintln!(rt; "lockrun: the listing could not be written")?;
    }
    Ok(ExitCode::SUCCESS)
}
