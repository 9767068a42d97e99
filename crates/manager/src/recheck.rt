// Recheck: a Blocked entry is promoted if the counters show no one else at its records.
ghost use Rattle.std.specs.Prelude.{◌≡◌};
ghost use Rattle.rules.specs.Request.{size};
ghost use Rattle.rules.specs.Prices.{prices_of};
ghost use Rattle.rules.specs.Refusals.{stands_at, entry_of, recheck_rows};
ghost use Rattle.rules.specs.Calls.{recheck_of};
ghost use Rattle.manager.specs.State.{view, Sound, Did};
ghost use Rattle.manager.specs.Rows.{RefusedOr};

use super::{meters, places, refusal};
use crate::{Said, State};
use rules::{Answer, Mode, Refusal};

// Refusals in the order 1, 2, 10, 11, 9; where none applies, the place of the entry and the price.
fn judged(s: &State, who: u8, serial: u16) -> Result<(usize, u32), Refusal>
    requires { Sound s.now }
    ensures { RefusedOr (recheck_rows (prices_of (view s.now)) (view s.now) who serial)
        (λ found. (found.0 ≡ stands_at who serial (view s.now).queue)
        × (found.1 ≡ (prices_of (view s.now)).recheck (size (entry_of who serial (view s.now).queue)))) result }
{
    let m = meters::payer(s, who)?;
    let at = places::place_of(s, who, serial).ok_or(Refusal::Absent)?;
    let e = s.entries[at];
    if e.mode != Mode::Blocked {
        return Err(Refusal::WrongState);
    }
    let price = 1 + e.size() as u32;
    if m.fuel < price {
        return Err(Refusal::TooDear);
    }
    Ok((at, price))
}

pub fn recheck(s: State, who: u8, serial: u16) -> State
    requires { Sound s }
    ensures { Did result (recheck_of (prices_of (view s)) (view s) who serial) }
{
    let mut n = s;
    match judged(&n, who, serial) {
        Ok((at, price)) => {
            let e = n.entries[at];
            let mut answer = Answer::Still;
            if counters::alone(&n.cx, &n.cs, &e) {
                let p = e.promoted();
                n.entries[at] = p;
                answer = p.named();
            }
            let k = (who - 1) as usize;
            n.meters[k] = meter::charged(n.meters[k], price);
            n.said = Said {
                answer,
                burnt: price,
            };
        }
        Err(why) => refusal::refuse(&mut n, who, why),
    }
    n
}
