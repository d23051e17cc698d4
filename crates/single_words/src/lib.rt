// A single word judged: what it does to the rig's core, and when it is refused.
// Keeps 01 "Command words", the singles with their refusals in order, bits not named ignored; 02 (iv), start and deflection as stop.
#![tactic(auto)]

ghost use Rattle.std.specs.Prelude.{◌≡◌};
ghost use Rattle.judge.specs.Records.{supply_at};
ghost use Rattle.judge.specs.Commands.{carried, relay_to, relay_cmd, iel_cmd, mask_cmd, target_cmd, limit_cmd, mode_cmd, stepping_cmd, single_of};

use judge::{Core, Iel, Refusal, Settings, Which};
use supply::Supply;

// The relay is common: on and off go to all three.
fn relay_to(core: Core, on: bool) -> Core
    ensures { result ≡ relay_to core on }
{
    let all = [core.stop, core.start, core.deflection];
    let [stop, start, deflection] = all.map(|s| relaying::set_relay(s, on));
    Core {
        stop,
        start,
        deflection,
        ..core
    }
}

fn set_relay(core: Core, low: u8) -> Result<Core, Refusal>
    ensures { result ≡ relay_cmd core low }
{
    Ok(relay_to(core, relaying::relay_of(low)?))
}

fn set_iel(core: Core, low: u8) -> Result<Core, Refusal>
    ensures { result ≡ iel_cmd core low }
{
    let iel = Iel {
        clock: low % 2 == 1,
        enable: low / 2 % 2 == 1,
    };
    let settings = Settings {
        iel,
        ..core.settings
    };
    Ok(Core { settings, ..core })
}

fn set_mask(core: Core, low: u8) -> Result<Core, Refusal>
    ensures { result ≡ mask_cmd core low }
{
    let settings = Settings {
        mask: low % 8,
        ..core.settings
    };
    Ok(Core { settings, ..core })
}

#[tactic(auto, unfolding(judge::specs::Commands::mode_cmd))]
fn set_mode(core: Core, low: u8) -> Result<Core, Refusal>
    ensures { result ≡ mode_cmd core low }
{
    let parallel = match low {
        0 => false,
        1 => true,
        _ => return Err(Refusal::OutOfRange),
    };
    let settings = Settings {
        parallel,
        ..core.settings
    };
    Ok(Core { settings, ..core })
}

// A command to one supply, by what it does to that supply. What the supply answers is carried to the core.
#[tactic(auto, unfolding(judge::specs::Commands::carried))]
fn command<F: FnOnce(Supply, u8) -> Result<Supply, supply::Refusal>>(
    core: Core,
    which: Which,
    low: u8,
    order: F,
) -> Result<Core, Refusal>
    requires { F.pre order (supply_at core which) low }
    ensures { (r : _) × F.post order (supply_at core which) low r × (result ≡ carried core which r) }
{
    let supply = order(judge::supply_at(core, which), low)?;
    Ok(judge::with_supply(core, which, supply))
}

// A single: the table's rows that are no blocks.
#[tactic(auto, unfolding(judge::specs::Commands::single_of))]
pub fn single(core: Core, code: u8, low: u8) -> Result<Core, Refusal>
    ensures { result ≡ single_of core code low }
{
    match code {
        0x08 => set_relay(core, low),
        0x0C => set_iel(core, low),
        0x20 => command(core, Which::Start, low, targeting::set_target),
        0x21 => command(core, Which::Start, low, targeting::set_limit),
        0x22 => command(core, Which::Deflection, low, targeting::set_stepping),
        0x23 => command(core, Which::Deflection, low, targeting::set_target),
        0x24 => command(core, Which::Deflection, low, targeting::set_limit),
        0x26 => set_mask(core, low),
        0x28 => command(core, Which::Stop, low, targeting::set_target),
        0x29 => command(core, Which::Stop, low, targeting::set_limit),
        0x2B => set_mode(core, low),
        0x2C => command(core, Which::Start, low, targeting::set_stepping),
        0x2D => command(core, Which::Stop, low, targeting::set_stepping),
        _ => Err(Refusal::UnknownCode),
    }
}
