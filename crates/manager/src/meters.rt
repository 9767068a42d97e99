// The meter of a call's tenant.
ghost use Rattle.std.specs.Prelude.{◌≡◌, if◌then◌else◌};
ghost use Rattle.rules.specs.Table.{new_meter, is_tenant, meter_of};
ghost use Rattle.rules.specs.Refusals.{scan_rows};
ghost use Rattle.meter.specs.View.{meter_view};
ghost use Rattle.manager.specs.State.{view};
ghost use Rattle.manager.specs.Rows.{RefusedOr};
ghost use Rattle.manager.specs.Deeds.{meter_in};

use super::tenants;
use crate::State;
use meter::Meter;
use rules::Refusal;

// Who is no tenant has an empty one.
pub fn meter_of(all: &[Meter; 16], who: u8) -> Meter
    ensures { meter_view result ≡ (if is_tenant who then meter_view (meter_in all.now who) else new_meter 0) }
{
    if tenants::is_tenant(who) {
        all[(who - 1) as usize]
    } else {
        meter::fresh(0)
    }
}

// Refusals 1 and 2, which every tenant call but Finish begins with, and which are all that a Scan has: the meter of who pays.
pub fn payer(s: &State, who: u8) -> Result<Meter, Refusal>
    ensures { RefusedOr (scan_rows (view s.now) who) (λ m. meter_view m ≡ meter_of (view s.now) who) result }
{
    if !tenants::is_tenant(who) {
        return Err(Refusal::NoTenant);
    }
    let m = meter_of(&s.meters, who);
    if m.fuel == 0 {
        return Err(Refusal::Dry);
    }
    Ok(m)
}
