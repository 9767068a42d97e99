// The places of the queue: where an entry stands, and how it leaves.
ghost use Rattle.std.specs.Prelude.{◌<◌, length, get_or};
ghost use Rattle.rules.specs.Records.{Stored};
ghost use Rattle.rules.specs.Request.{nobody};
ghost use Rattle.manager.specs.State.{view, Tied};
ghost use Rattle.manager.specs.Deeds.{FoundAt, Gone};

use crate::{Said, State};
use entry::Entry;
use rules::Answer;

// Where the entry of that name stands, counted from the front.
pub fn place_of(s: &State, who: u8, serial: u16) -> Option<usize>
    requires { Tied s.now }
    ensures { FoundAt (view s.now).queue who serial result }
{
    s.entries[..s.count]
        .iter()
        .position(|e| e.tenant == who && e.serial == serial)
}

// The entry at a place leaves: its counters fall, records that nobody is at any more leave the maps, the entries behind it are
// shifted down, and the last slot is emptied. The call answers done, and says what it burnt.
pub fn release(s: &mut State, at: usize, burnt: u32)
    requires tied { Tied s.old }
    requires at_in_bounds { at < length (view s.old).queue }
    requires stored { Stored (get_or (view s.old).queue at nobody).reads (get_or (view s.old).queue at nobody).writes }
    ensures { Gone s.old at burnt s.new }
{
    let e = s.entries[at];
    counters::lower(&mut s.cx, &mut s.maps.written, e.writes());
    counters::lower(&mut s.cs, &mut s.maps.read, e.reads());
    s.entries.copy_within(at + 1..s.count, at);
    s.count -= 1;
    s.entries[s.count] = Entry::empty();
    s.said = Said {
        answer: Answer::Done,
        burnt,
    };
}
