// The command table: what commands move, and why a word is refused, with its number. Crates `single_words` and `block_words` judge by it.
// Keeps of 01 "Command words" the numbers; the table's rows, their refusals in order, are defined here.
#![tactic(auto)]

ghost use Rattle.std.specs.Prelude.{◌≡◌};
ghost use Rattle.judge.specs.Refusals.{number_of, raised};
ghost use Rattle.judge.specs.Records.{supply_at, with_supply};

use supply::Supply;

// The multiplexer word: all of byte 1, and bit 0 of byte 2.
#[derive(Clone, Copy)]
pub struct Mux {
    pub byte: u8,
    pub bit: bool,
}

#[derive(Clone, Copy)]
pub struct Window {
    pub start: u8,
    pub stop: u8,
}

// What the three blocks set.
#[derive(Clone, Copy)]
pub struct Sensor {
    pub mux: Mux,
    pub direction: Window,
    pub energy: Window,
}

#[derive(Clone, Copy)]
pub struct Iel {
    pub clock: bool,
    pub enable: bool,
}

#[derive(Clone, Copy)]
pub struct Settings {
    pub parallel: bool,
    pub mask: u8,
    pub iel: Iel,
    pub sensor: Sensor,
}

// The three supplies (02 (iv)): stop MCP, start MCP, deflection.
#[derive(Clone, Copy)]
pub enum Which {
    Stop,
    Start,
    Deflection,
}

// What commands move. It holds no array, so an enum can hold it.
#[derive(Clone, Copy)]
pub struct Core {
    pub stop: Supply,
    pub start: Supply,
    pub deflection: Supply,
    pub settings: Settings,
}

// Why a word or a closed block is refused. A dropped block (03h) is told by the rig's reply and has no case here.
#[derive(Clone, Copy)]
pub enum Refusal {
    RelayOff,
    Disabled,
    OverLimit,
    StrayWord,
    RelayBits,
    WrongCheck,
    Unsettled,
    OutOfRange,
    WrongCount,
    UnknownCode,
}

// The number that the table gives a refusal.
pub fn number(r: Refusal) -> u8
    ensures { result ≡ number_of r }
{
    match r {
        Refusal::RelayOff => 0x04,
        Refusal::Disabled => 0x05,
        Refusal::OverLimit => 0x06,
        Refusal::StrayWord => 0x0B,
        Refusal::RelayBits => 0x0B,
        Refusal::WrongCheck => 0x0B,
        Refusal::Unsettled => 0x0C,
        Refusal::OutOfRange => 0x0D,
        Refusal::WrongCount => 0x0E,
        Refusal::UnknownCode => 0x0F,
    }
}

// A supply's refusal among the rig's.
impl From<supply::Refusal> for Refusal {
    ghost from_gives = { λ r s. s ≡ raised r };

    fn from(r: supply::Refusal) -> Refusal {
        match r {
            supply::Refusal::RelayOff => Refusal::RelayOff,
            supply::Refusal::Disabled => Refusal::Disabled,
            supply::Refusal::OverLimit => Refusal::OverLimit,
            supply::Refusal::RelayBits => Refusal::RelayBits,
            supply::Refusal::Unsettled => Refusal::Unsettled,
            supply::Refusal::OutOfRange => Refusal::OutOfRange,
        }
    }
}

// The supply that a command is for.
pub fn supply_at(core: Core, which: Which) -> Supply
    ensures { result ≡ supply_at core which }
{
    match which {
        Which::Stop => core.stop,
        Which::Start => core.start,
        Which::Deflection => core.deflection,
    }
}

// The core with another record of that supply: the other two stay.
pub fn with_supply(core: Core, which: Which, supply: Supply) -> Core
    ensures { result ≡ with_supply core which supply }
{
    match which {
        Which::Stop => Core {
            stop: supply,
            ..core
        },
        Which::Start => Core {
            start: supply,
            ..core
        },
        Which::Deflection => Core {
            deflection: supply,
            ..core
        },
    }
}
