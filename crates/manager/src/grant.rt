// Grant: adds fuel.
ghost use Rattle.std.specs.Prelude.{◌≡◌};
ghost use Rattle.rules.specs.Table.{meter_of};
ghost use Rattle.rules.specs.Refusals.{grant_rows};
ghost use Rattle.rules.specs.Calls.{grant_of};
ghost use Rattle.meter.specs.View.{meter_view};
ghost use Rattle.manager.specs.State.{view, Sound, Did};
ghost use Rattle.manager.specs.Rows.{RefusedOr};

use super::{meters, refusal, tenants};
use crate::{Said, State};
use meter::Meter;
use rules::{Answer, Refusal};

// Refusals in the order 1, 13; where none applies, the tenant's meter.
fn judged(s: &State, who: u8, amount: u32) -> Result<Meter, Refusal>
    requires { Sound s.now }
    ensures { RefusedOr (grant_rows (view s.now) who amount) (λ m. meter_view m ≡ meter_of (view s.now) who) result }
{
    if !tenants::is_tenant(who) {
        return Err(Refusal::NoTenant);
    }
    let m = meters::meter_of(&s.meters, who);
    if 1_000_000_000 - m.fuel < amount {
        return Err(Refusal::TooMuchFuel);
    }
    Ok(m)
}

pub fn grant(s: State, who: u8, amount: u32) -> State
    requires { Sound s }
    ensures { Did result (grant_of (view s) who amount) }
{
    let mut n = s;
    n.said = match judged(&n, who, amount) {
        Ok(m) => {
            n.meters[(who - 1) as usize] = meter::granted(m, amount);
            Said {
                answer: Answer::Ok,
                burnt: 0,
            }
        }
        Err(why) => refusal::of_host(why),
    };
    n
}
