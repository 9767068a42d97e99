// Open: a fresh state, with the shares of the tenants 1 to 16.
ghost use Rattle.std.specs.Prelude.{◌≡◌, length, map};
ghost use Rattle.rules.specs.Lists.{total};
ghost use Rattle.rules.specs.Table.{new_meter, fresh as fresh_table};
ghost use Rattle.rules.specs.Refusals.{open_rows};
ghost use Rattle.rules.specs.Calls.{open_of};
ghost use Rattle.meter.specs.View.{meter_view};
ghost use Rattle.manager.specs.State.{Did, Becomes};
ghost use Rattle.manager.specs.Rows.{RefusedOr};

use crate::{Said, State};
use entry::Entry;
use maps::Maps;
use meter::Meter;
use rules::{Answer, Refusal};

// The sum of the shares.
fn sum(shares: &[u8; 16]) -> u32
    ensures { result ≡ total (λ n. n) shares.now }
{
    let mut places = 0;
    for &share in shares {
        places += u32::from(share);
    }
    places
}

// Refusal 14: not exactly 16 shares, or their sum above 64; where it does not apply, the 16 shares.
fn judged(shares: &[u8]) -> Result<&[u8; 16], Refusal>
    ensures { RefusedOr (open_rows shares.now) (λ all. all.now ≡ shares.now) result }
{
    let Ok(all) = <&[u8; 16]>::try_from(shares) else {
        return Err(Refusal::WrongShares);
    };
    if 64 < sum(all) {
        return Err(Refusal::WrongShares);
    }
    Ok(all)
}

// A meter for each share.
fn meters(shares: &[u8; 16]) -> [Meter; 16]
    ensures { map meter_view result ≡ map new_meter shares.now }
{
    let mut all = [meter::fresh(0); 16];
    for i in 0..16 {
        all[i] = meter::fresh(shares[i]);
    }
    all
}

// A fresh state: all counters zero, no record in a map, an empty queue, and what Open answers.
fn fresh(shares: &[u8; 16], answer: Answer) -> State
    ensures becomes { Becomes (fresh_table shares.now) result }
    ensures answer_value { (result.said.answer ≡ answer) × (result.said.burnt ≡ 0) }
{
    State {
        cx: [0; 256],
        cs: [0; 256],
        maps: Maps::none(),
        meters: meters(shares),
        count: 0,
        entries: [Entry::empty(); 64],
        said: Said { answer, burnt: 0 },
    }
}

pub fn open(shares: &[u8]) -> State
    ensures { Did result (open_of shares.now) }
{
    let (all, answer) = match judged(shares) {
        Ok(all) => (*all, Answer::Ok),
        Err(why) => ([0; 16], Answer::Refused(why.number())),
    };
    fresh(&all, answer)
}
