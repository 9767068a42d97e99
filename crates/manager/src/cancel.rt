// Cancel: a tenant takes its own Blocked entry out, which burns 1. What its admission burnt is not given back.
ghost use Rattle.std.specs.Prelude.{◌≡◌};
ghost use Rattle.rules.specs.Prices.{prices_of};
ghost use Rattle.rules.specs.Refusals.{stands_at, cancel_rows};
ghost use Rattle.rules.specs.Calls.{cancel_of};
ghost use Rattle.manager.specs.State.{view, Sound, Did};
ghost use Rattle.manager.specs.Rows.{RefusedOr};

use super::{meters, places, refusal};
use crate::State;
use rules::{Mode, Refusal};

// Refusals in the order 1, 2, 10, 11; where none applies, the place of the entry.
fn judged(s: &State, who: u8, serial: u16) -> Result<usize, Refusal>
    requires { Sound s.now }
    ensures { RefusedOr (cancel_rows (view s.now) who serial) (λ at. at ≡ stands_at who serial (view s.now).queue) result }
{
    meters::payer(s, who)?;
    let at = places::place_of(s, who, serial).ok_or(Refusal::Absent)?;
    if s.entries[at].mode != Mode::Blocked {
        return Err(Refusal::WrongState);
    }
    Ok(at)
}

pub fn cancel(s: State, who: u8, serial: u16) -> State
    requires { Sound s }
    ensures { Did result (cancel_of (prices_of (view s)) (view s) who serial) }
{
    let mut n = s;
    match judged(&n, who, serial) {
        Ok(at) => {
            let k = (who - 1) as usize;
            n.meters[k] = meter::charged(n.meters[k], 1);
            places::release(&mut n, at, 1);
        }
        Err(why) => refusal::refuse(&mut n, who, why),
    }
    n
}
