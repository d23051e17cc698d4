// The spin of a supply: its level goes one towards its target.
// Keeps 01 "Spins and power", the level at a spin, carried out on the supply record itself.
#![tactic(auto)]

ghost use Rattle.std.specs.Prelude.{◌≡◌};
ghost use Rattle.supply.specs.Rules.{towards, stepped};

use std::cmp::Ordering;
use supply::Supply;

// One towards the target. Neither sum leaves the range of a byte, since the target is in it.
fn toward(level: u8, target: u8) -> u8
    ensures { result ≡ towards level target }
{
    match level.cmp(&target) {
        Ordering::Less => level + 1,
        Ordering::Equal => level,
        Ordering::Greater => level - 1,
    }
}

// The level after a spin, from the record by value: what `spin` stores.
fn next_level(s: Supply) -> u8
    ensures { result ≡ (stepped s).level }
{
    if s.relay & s.stepping {
        return toward(s.level, s.target);
    }
    s.level
}

// The spin, carried out on the supply record itself.
pub fn spin(s: &mut Supply)
    ensures { s.new ≡ stepped s.old }
{
    s.level = next_level(*s);
}

// The spin for callers that hold the record by value.
pub fn spun(s: Supply) -> Supply
    ensures { result ≡ stepped s }
{
    let mut held = s;
    spin(&mut held);
    held
}
