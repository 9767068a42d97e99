// Deliver: one remote answer fewer is due. A Blocked entry stays Blocked.
ghost use Rattle.std.specs.Prelude.{◌≡◌};
ghost use Rattle.rules.specs.Refusals.{stands_at, deliver_rows};
ghost use Rattle.rules.specs.Calls.{deliver_of};
ghost use Rattle.manager.specs.State.{view, Sound, Did};
ghost use Rattle.manager.specs.Rows.{RefusedOr};

use super::{places, refusal, tenants};
use crate::{Said, State};
use rules::Refusal;

// Refusals in the order 1, 10, 12; where none applies, the place of the entry.
fn judged(s: &State, who: u8, serial: u16) -> Result<usize, Refusal>
    requires { Sound s.now }
    ensures { RefusedOr (deliver_rows (view s.now) who serial) (λ at. at ≡ stands_at who serial (view s.now).queue) result }
{
    if !tenants::is_tenant(who) {
        return Err(Refusal::NoTenant);
    }
    let at = places::place_of(s, who, serial).ok_or(Refusal::Absent)?;
    if s.entries[at].due == 0 {
        return Err(Refusal::NothingDue);
    }
    Ok(at)
}

pub fn deliver(s: State, who: u8, serial: u16) -> State
    requires { Sound s }
    ensures { Did result (deliver_of (view s) who serial) }
{
    let mut n = s;
    match judged(&n, who, serial) {
        Ok(at) => {
            let e = n.entries[at].delivered();
            n.entries[at] = e;
            n.said = Said {
                answer: e.named(),
                burnt: 0,
            };
        }
        Err(why) => n.said = refusal::of_host(why),
    }
    n
}
