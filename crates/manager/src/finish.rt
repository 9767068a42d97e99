// Finish: a Free entry leaves, and burns nothing: its release was paid at admission.
ghost use Rattle.std.specs.Prelude.{◌≡◌};
ghost use Rattle.rules.specs.Prices.{prices_of};
ghost use Rattle.rules.specs.Refusals.{stands_at, finish_rows};
ghost use Rattle.rules.specs.Calls.{finish_of};
ghost use Rattle.manager.specs.State.{view, Sound, Did};
ghost use Rattle.manager.specs.Rows.{RefusedOr};

use super::{meters, places, refusal, tenants};
use crate::State;
use rules::{Mode, Refusal};

// Refusal 1; then a Free entry of that name succeeds even on a dry tank, and its place is given; then 2, 10, 11.
fn judged(s: &State, who: u8, serial: u16) -> Result<usize, Refusal>
    requires { Sound s.now }
    ensures { RefusedOr (finish_rows (view s.now) who serial) (λ at. at ≡ stands_at who serial (view s.now).queue) result }
{
    if !tenants::is_tenant(who) {
        return Err(Refusal::NoTenant);
    }
    let dry = meters::meter_of(&s.meters, who).fuel == 0;
    let place = places::place_of(s, who, serial);
    match place {
        Some(at) if s.entries[at].mode == Mode::Free => Ok(at),
        _ if dry => Err(Refusal::Dry),
        Some(_) => Err(Refusal::WrongState),
        None => Err(Refusal::Absent),
    }
}

pub fn finish(s: State, who: u8, serial: u16) -> State
    requires { Sound s }
    ensures { Did result (finish_of (prices_of (view s)) (view s) who serial) }
{
    let mut n = s;
    match judged(&n, who, serial) {
        Ok(at) => places::release(&mut n, at, 0),
        Err(why) => refusal::refuse(&mut n, who, why),
    }
    n
}
