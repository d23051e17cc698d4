// A closed block judged, whose check is right: what it does to the rig's core, and when it is refused.
// Keeps 01 "Command words": the table's last three rows, their refusals in order; bits not named are ignored.
#![tactic(auto)]

ghost use Rattle.std.specs.Prelude.{◌≡◌};
ghost use Rattle.judge.specs.Commands.{mux_word, window_of, counted_of, block_of};

use judge::{Core, Mux, Refusal, Sensor, Settings, Window};

// The multiplexer word: byte 1, and bit 0 of byte 2.
fn mux_word(first: u8, second: u8) -> Mux
    ensures { result ≡ mux_word first second }
{
    Mux {
        byte: first,
        bit: second % 2 == 1,
    }
}

// A window's start and stop: bits 4-0 of each byte.
fn window_of(first: u8, second: u8) -> Window
    ensures { result ≡ window_of first second }
{
    Window {
        start: first % 32,
        stop: second % 32,
    }
}

// Every listed block has two data words.
#[tactic(auto, unfolding(judge::specs::Commands::counted_of))]
fn counted(n: u8, core: Core, sensor: Sensor) -> Result<Core, Refusal>
    ensures { result ≡ counted_of n core sensor }
{
    if n != 2 {
        return Err(Refusal::WrongCount);
    }
    let settings = Settings {
        sensor,
        ..core.settings
    };
    Ok(Core { settings, ..core })
}

// A closed block with a right check: the table's last three rows. first and second are its first two bytes.
#[tactic(auto, unfolding(judge::specs::Commands::block_of))]
pub fn block(core: Core, code: u8, n: u8, first: u8, second: u8) -> Result<Core, Refusal>
    ensures { result ≡ block_of core code n first second }
{
    let was = core.settings.sensor;
    let sensor = match code {
        0x20 => Sensor {
            mux: mux_word(first, second),
            ..was
        },
        0x23 => Sensor {
            direction: window_of(first, second),
            ..was
        },
        0x24 => Sensor {
            energy: window_of(first, second),
            ..was
        },
        _ => return Err(Refusal::UnknownCode),
    };
    counted(n, core, sensor)
}
