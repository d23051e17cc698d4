// Commands by name, with their settings: what one is made of, and the numbers of the refusals of those who write and read its words.
// Keeps 02 (i) and, of (iv), the commands of three supplies. Crate `word_writer` writes a command's words, `word_reader` reads words back; the rules of
// both are defined here.
#![tactic(auto)]

ghost use Rattle.std.specs.Prelude.{◌≡◌, ◌%◌};
ghost use Rattle.wording.specs.Refusals.{number_of};
ghost use Rattle.wording.specs.Written.{block};

use judge::Which;

// The commands of 01's table, singles first, each with the settings that 01 reads; those of a supply tell which one (02 (iv)).
#[derive(Clone, Copy)]
pub enum Command {
    // 08h: the bit for on, then the bit for off.
    Relay(u8, u8),
    // 0Ch: clock, enable.
    Iel(u8, u8),
    // 26h.
    HeadMask(u8),
    // 28h stop, 20h start, 23h deflection.
    Target(Which, u8),
    // 29h, 21h, 24h.
    Limit(Which, u8),
    // 2Bh: the whole low byte.
    Mode(u8),
    // 2Dh, 2Ch, 22h: the whole low byte.
    Stepping(Which, u8),
    // Block 20h: byte 1, then the bit of byte 2.
    Multiplexers(u8, u8),
    // Block 23h: start, stop.
    DirectionWindow(u8, u8),
    // Block 24h: start, stop.
    EnergyWindow(u8, u8),
}

// Why no word is written, or none is understood.
#[derive(Clone, Copy)]
pub enum Refusal {
    TooWide,
    NoRoom,
    NotOne,
}

// The number of a refusal. A function and no `From`: demands/specs/Ours speaks of its contract.
pub fn number(r: Refusal) -> u8
    ensures { result ≡ number_of r }
{
    match r {
        Refusal::TooWide => 25,
        Refusal::NoRoom => 26,
        Refusal::NotOne => 38,
    }
}

// The words of a block of two data words: head, data and end of one code of six bits, the end with the check over both bytes.
pub fn block(code: u8, first: u8, second: u8) -> [u16; 4]
    ensures { result ≡ block (code % 64) first second }
{
    let code = code % 64;
    let check = crc::check_of(&[first, second]);
    [
        base::word_of(0x40 + code, 2),
        base::word_of(0x80 + code, first),
        base::word_of(0x80 + code, second),
        base::word_of(0xC0 + code, check),
    ]
}
