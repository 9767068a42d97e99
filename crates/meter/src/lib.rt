// A tenant's meter: the fuel that is left, the serials given so far, and the share of the queue's places.
// Each contract says what the law book's function makes of the meter.
#![tactic(auto)]

ghost use Rattle.std.specs.Prelude.{◌≡◌, ◌≤◌, ◌<◌, ◌+◌, ◌-◌};
ghost use Rattle.rules.specs.Table.{spent, new_meter, granted, numbered};
ghost use Rattle.meter.specs.View.{meter_view};

#[derive(Clone, Copy)]
pub struct Meter {
    pub fuel: u32,
    pub serials: u16,
    pub share: u8,
}

// The fuel that is left once the price is paid.
fn less(fuel: u32, price: u32) -> u32
    requires { price ≤ fuel }
    ensures { result ≡ fuel - price }
{
    fuel - price
}

// Lowers the lent meter's fuel by the price, and leaves the rest as it was.
// Document 01: "The tenant's meter is lent to the charge, which alone lowers fuel".
fn charge(m: &mut Meter, price: u32)
    requires { price ≤ m.old.fuel }
    ensures { meter_view m.new ≡ spent (meter_view m.old) price }
{
    m.fuel = less(m.fuel, price);
}

// The meter once the price is paid: it lends its own copy to the charge, and gives it back.
pub fn charged(mut m: Meter, price: u32) -> Meter
    requires { price ≤ m.fuel }
    ensures { meter_view result ≡ spent (meter_view m) price }
{
    charge(&mut m, price);
    m
}

// The meter with more fuel. The caller keeps it within document 01's limit.
pub fn granted(m: Meter, amount: u32) -> Meter
    requires { m.fuel + amount ≤ 1_000_000_000 }
    ensures { meter_view result ≡ granted (meter_view m) amount }
{
    Meter {
        fuel: m.fuel + amount,
        ..m
    }
}

// The meter once its next serial is given. The caller sees that there is one left.
pub fn numbered(m: Meter) -> Meter
    requires { m.serials < 65_535 }
    ensures { meter_view result ≡ numbered (meter_view m) }
{
    Meter {
        serials: m.serials + 1,
        ..m
    }
}

// A new tenant's meter: its share, no fuel, and no serial given.
pub fn fresh(share: u8) -> Meter
    ensures { meter_view result ≡ new_meter share }
{
    Meter {
        fuel: 0,
        serials: 0,
        share,
    }
}
