// The relay of the high voltage supplies: its word read, and carried out on one supply.
// Keeps 01 "Command words", the single 08h.
#![tactic(auto)]

ghost use Rattle.std.specs.Prelude.{◌≡◌};
ghost use Rattle.supply.specs.Rules.{relay_of, relayed};

use supply::{Refusal, Supply};

// 08h, read: bit 1 on, bit 5 off. It asks no supply, so that one word can switch several.
#[tactic(auto, unfolding(supply::specs::Rules::relay_of))]
pub fn relay_of(low: u8) -> Result<bool, Refusal>
    ensures { result ≡ relay_of low }
{
    let on = low / 2 % 2 == 1;
    let off = low / 32 % 2 == 1;
    match (on, off) {
        (true, false) => Ok(true),
        (false, true) => Ok(false),
        _ => Err(Refusal::RelayBits),
    }
}

// 08h, carried out on one supply. Off sets level and target to 0.
pub fn set_relay(s: Supply, on: bool) -> Supply
    ensures { result ≡ relayed s on }
{
    if on {
        Supply { relay: true, ..s }
    } else {
        Supply {
            relay: false,
            level: 0,
            target: 0,
            ..s
        }
    }
}
