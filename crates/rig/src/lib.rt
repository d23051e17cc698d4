// The rig: what it is made of, and its start. Crates above it move it: `words` takes words, `power` spins and cuts, `sending` builds frames.
// Keeps of 01 "Spins and power" the start, to which a power cut returns; the rules of "Command words" are defined here. It goes in by value and comes back.
#![tactic(auto)]

ghost use Rattle.std.specs.Prelude.{◌≡◌};
ghost use Rattle.rig.specs.Start.{start_core, start_rig};

use base::Spins;
use judge::{Core, Iel, Mux, Refusal, Sensor, Settings, Window};
use supply::Supply;

// The kind of a word.
#[derive(Clone, Copy)]
pub enum Kind {
    Single,
    Head,
    Data,
    End,
}

// What refusals leave behind: the error code, the last invalid code, the invalid count.
#[derive(Clone, Copy)]
pub struct Faults {
    pub error: u8,
    pub last: u8,
    pub count: u8,
}

// A block that waits: its head's high byte, how many data words it has and how many came; of their low bytes the first two, and the check so far.
#[derive(Clone, Copy)]
pub struct Pending {
    pub head: u8,
    pub n: u8,
    pub got: u8,
    pub first: u8,
    pub second: u8,
    pub check: u8,
}

// What the instructor sets.
#[derive(Clone, Copy)]
pub struct Panel {
    pub free: u16,
    pub bias: u8,
    pub ground: u8,
    pub flap1: bool,
    pub flap2: bool,
    pub flap3: bool,
}

// The index of the next frame, and the number latched for the frames that it is spread over.
#[derive(Clone, Copy)]
pub struct Sending {
    pub latch: u32,
    pub next: u8,
}

// No padding stands between the fields, here or in the two records above: it would be copied with the rig at every word. The order is measured: many
// another one makes a word take twice as long (docs/FIGURES.md).
// `core.settings.sensor` is what was ordered; `register` is the sensor's own, which a spin copies from it and frames show (02 (ii)).
#[derive(Clone, Copy)]
pub struct Rig {
    pub edbs: Spins,
    pub sending: Sending,
    pub core: Core,
    pub pending: Option<Pending>,
    pub panel: Panel,
    pub check: u8,
    pub faults: Faults,
    pub register: Sensor,
}

// What a word does, by its kind and the block that waits, if one does: it is kept, closes the block, is swallowed with it, or is judged afresh.
#[derive(Clone, Copy)]
pub enum Way {
    Keep,
    Close,
    Swallow,
    Afresh,
}

// What a judged word comes to.
#[derive(Clone, Copy)]
pub enum Answer {
    Accepted,
    Waiting,
    Refused(Refusal),
}

// What the sender of a word hears. Swallowed: the block was dropped, 03h, and the word went with it.
// Dropped: the block was dropped, 03h, and then the word was judged afresh.
#[derive(Clone, Copy)]
pub enum Reply {
    Plain(Answer),
    Swallowed,
    Dropped(Answer),
}

// The number of a dropped block.
pub const DROPPED: u8 = 0x03;

// The rig after a word, and the reply.
#[derive(Clone, Copy)]
pub struct Taken {
    pub rig: Rig,
    pub reply: Reply,
}

// The refusals that a reply gives, by number and in their order: two at most.
#[derive(Clone, Copy)]
pub struct Numbers {
    pub first: Option<u8>,
    pub second: Option<u8>,
}

// What commands move, at the start.
fn start_core() -> Core
    ensures { result ≡ start_core }
{
    let off = Supply {
        relay: false,
        stepping: false,
        level: 0,
        target: 0,
        limit: 0,
    };
    let shut = Window { start: 0, stop: 0 };
    let sensor = Sensor {
        mux: Mux {
            byte: 0,
            bit: false,
        },
        direction: shut,
        energy: shut,
    };
    let settings = Settings {
        parallel: false,
        mask: 7,
        iel: Iel {
            clock: false,
            enable: false,
        },
        sensor,
    };
    Core {
        stop: off,
        start: off,
        deflection: off,
        settings,
    }
}

// The start, to which a power cut returns. The register is as clear as what is ordered: all 0.
pub fn start() -> Rig
    ensures { result ≡ start_rig }
{
    let core = start_core();
    let register = core.settings.sensor;
    Rig {
        core,
        register,
        faults: Faults {
            error: 0,
            last: 0xFF,
            count: 0,
        },
        pending: None,
        check: 0,
        panel: Panel {
            bias: 0,
            ground: 0,
            free: 0,
            flap1: false,
            flap2: false,
            flap3: false,
        },
        sending: Sending { next: 0, latch: 0 },
        edbs: Spins(0),
    }
}
