// held, a host call: how many records are held. It burns nothing and changes nothing.
ghost use Rattle.std.specs.Prelude.{◌≡◌};
ghost use Rattle.rules.specs.Clash.{held_of};
ghost use Rattle.manager.specs.State.{view, Sound};

use crate::State;
use rules::Tally;

// The records with Cx above 0, with Cs above 0, and either, by the ones of the maps.
pub fn held(s: State) -> Tally
    requires { Sound s }
    ensures { result ≡ held_of (view s) }
{
    let mut both = s.maps.written;
    maps::join(&mut both, &s.maps.read);
    Tally {
        written: maps::ones(s.maps.written),
        read: maps::ones(s.maps.read),
        either: maps::ones(both),
    }
}
