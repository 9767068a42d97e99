// A refused call: nothing changes but its tenant's fuel, and what is said.
ghost use Rattle.std.specs.Prelude.{◌≡◌, false};
ghost use Rattle.rules.specs.declared.Answer.TheVariants.{Refused};
ghost use Rattle.rules.specs.Numbers.{number_of};
ghost use Rattle.rules.specs.Table.{is_tenant};
ghost use Rattle.rules.specs.Prices.{clause9, charge as charge_of};
ghost use Rattle.manager.specs.State.{view, Sound, Did};
ghost use Rattle.manager.specs.Deeds.{refused_with};

use super::tenants;
use crate::{Said, State};
use rules::{Answer, Refusal};

// What a refusal burns: 1 for the numbers 3 to 11 where there is fuel, nothing for the others.
fn burns(why: Refusal, fuel: u32) -> u32
    ensures { result ≡ charge_of clause9 fuel (number_of why) }
{
    match why.number() {
        3..=11 => fuel.min(1),
        _ => 0,
    }
}

// A tenant call is refused: the tenant pays what its refusal burns; who is none has nothing to pay.
pub fn refuse(s: &mut State, who: u8, why: Refusal)
    requires sound { Sound s.old }
    requires outsider { is_tenant who ≡ false → number_of why ≡ 1 }
    ensures { Did s.new (refused_with (view s.old) who (number_of why)) }
{
    let mut burnt = 0;
    if tenants::is_tenant(who) {
        let k = (who - 1) as usize;
        burnt = burns(why, s.meters[k].fuel);
        s.meters[k] = meter::charged(s.meters[k], burnt);
    }
    s.said = Said {
        answer: Answer::Refused(why.number()),
        burnt,
    };
}

// A host call is refused, which burns nothing.
pub fn of_host(why: Refusal) -> Said
    ensures { (result.answer ≡ Refused (number_of why)) × (result.burnt ≡ 0) }
{
    Said {
        answer: Answer::Refused(why.number()),
        burnt: 0,
    }
}
