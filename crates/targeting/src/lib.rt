// The commands to one supply: its target, its limit, and whether it steps.
// Keeps 01 "Command words", the singles 28h, 29h and 2Dh.
#![tactic(auto)]

ghost use Rattle.std.specs.Prelude.{◌≡◌};
ghost use Rattle.supply.specs.Rules.{targeted, limited, switched};

use supply::{Refusal, Supply};

// 28h: bits 3-0 are the new target, which may be set while stepping.
#[tactic(auto, unfolding(supply::specs::Rules::targeted))]
pub fn set_target(s: Supply, low: u8) -> Result<Supply, Refusal>
    ensures { result ≡ targeted s low }
{
    let target = low % 16;
    if !s.relay {
        return Err(Refusal::RelayOff);
    }
    if !s.stepping {
        return Err(Refusal::Disabled);
    }
    if s.limit < target {
        return Err(Refusal::OverLimit);
    }
    Ok(Supply { target, ..s })
}

// 29h: bits 3-0 are the new limit. The level stays, also where it is above: it goes down by spins alone.
#[tactic(auto, unfolding(supply::specs::Rules::limited))]
pub fn set_limit(s: Supply, low: u8) -> Result<Supply, Refusal>
    ensures { result ≡ limited s low }
{
    let limit = low % 16;
    if s.level != s.target {
        return Err(Refusal::Unsettled);
    }
    // 01 has this test; four bits never pass it.
    if 15 < limit {
        return Err(Refusal::OutOfRange);
    }
    let target = s.target.min(limit);
    Ok(Supply { limit, target, ..s })
}

// 2Dh: the whole low byte is 0 for off, 1 for on.
#[tactic(auto, unfolding(supply::specs::Rules::switched))]
pub fn set_stepping(s: Supply, low: u8) -> Result<Supply, Refusal>
    ensures { result ≡ switched s low }
{
    let stepping = match low {
        0 => false,
        1 => true,
        _ => return Err(Refusal::OutOfRange),
    };
    Ok(Supply { stepping, ..s })
}
