// Evict, a host call: an entry leaves, in whatever state it is. It burns nothing, and gives no fuel back.
ghost use Rattle.std.specs.Prelude.{◌≡◌};
ghost use Rattle.rules.specs.Refusals.{stands_at, evict_rows};
ghost use Rattle.rules.specs.Calls.{evict_of};
ghost use Rattle.manager.specs.State.{view, Sound, Did};
ghost use Rattle.manager.specs.Rows.{RefusedOr};

use super::{places, refusal, tenants};
use crate::State;
use rules::Refusal;

// Refusals in the order 1, 10; where none applies, the place of the entry.
fn judged(s: &State, who: u8, serial: u16) -> Result<usize, Refusal>
    requires { Sound s.now }
    ensures { RefusedOr (evict_rows (view s.now) who serial) (λ at. at ≡ stands_at who serial (view s.now).queue) result }
{
    if !tenants::is_tenant(who) {
        return Err(Refusal::NoTenant);
    }
    places::place_of(s, who, serial).ok_or(Refusal::Absent)
}

pub fn evict(s: State, who: u8, serial: u16) -> State
    requires { Sound s }
    ensures { Did result (evict_of (view s) who serial) }
{
    let mut n = s;
    match judged(&n, who, serial) {
        Ok(at) => places::release(&mut n, at, 0),
        Err(why) => n.said = refusal::of_host(why),
    }
    n
}
