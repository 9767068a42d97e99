// What any caller may read: who is a tenant, and the fuel that a tenant has.
ghost use Rattle.std.specs.Prelude.{◌≡◌, if◌then◌else◌};
ghost use Rattle.rules.specs.Table.{is_tenant, meter_of};
ghost use Rattle.manager.specs.State.{view};

use super::meters;
use crate::State;

// Tenants are 1 to 16.
pub fn is_tenant(who: u8) -> bool
    ensures { result ≡ is_tenant who }
{
    1 <= who && who <= 16
}

// Who is no tenant has none.
pub fn fuel_of(s: State, who: u8) -> u32
    ensures { result ≡ (if is_tenant who then (meter_of (view s) who).fuel else 0) }
{
    meters::meter_of(&s.meters, who).fuel
}
