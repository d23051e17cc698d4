// What a frame tells of an item, read by one table.
// Keeps 01 "The 40-byte frame" and 02 (iv). What stands in each byte, and what is read out of it, is said in crate `frame`.
#![tactic(auto)]

ghost use Rattle.std.specs.Prelude.{◌≡◌, ◌+◌, ◌*◌, ◌/◌, ◌%◌, ◌<◌, length, get_or};
ghost use Rattle.frame.specs.Items.{row_of};
ghost use Rattle.frame.specs.Read.{read_of};
ghost use Rattle.reading.specs.Spot.{spot, spot_of};

use frame::Item;

// Where an item stands: its word's first byte, what the word is divided by and the remainder then taken; the frames that bring it
// (index % period == phase); and how many slots old its first frame is then, 0 for an item that one frame brings whole.
#[derive(Clone, Copy)]
struct Spot {
    byte: usize,
    div: u32,
    rem: u32,
    period: u8,
    phase: u8,
    born: u8,
}

// One row of the table below.
fn stands(byte: usize, div: u32, rem: u32, period: u8, phase: u8, born: u8) -> Spot
    ensures { result ≡ spot byte div rem period phase born }
{
    Spot {
        byte,
        div,
        rem,
        period,
        phase,
        born,
    }
}

// The rows of the items: byte, div, rem, period, phase, born. A `match` and no array, which would be built anew at each use.
fn spot_of(item: Item) -> Spot
    ensures { result ≡ spot_of (row_of item) }
{
    match item {
        Item::Parallel => stands(0, 0x40, 2, 1, 0, 0),
        Item::Multiplexer1 => stands(5, 0x01, 2, 1, 0, 0),
        Item::Multiplexer2 => stands(5, 0x08, 2, 1, 0, 0),
        Item::Multiplexer3 => stands(5, 0x40, 2, 1, 0, 0),
        Item::ErrorCode => stands(6, 0x10, 16, 1, 0, 0),
        Item::DirectionStop => stands(8, 0x80, 32, 1, 0, 0),
        Item::DirectionStart => stands(8, 0x04, 32, 1, 0, 0),
        Item::EnergyStop => stands(9, 0x20, 32, 1, 0, 0),
        Item::EnergyStart => stands(9, 0x01, 32, 1, 0, 0),
        Item::LastInvalidCode => stands(15, 0x01, 256, 1, 0, 0),
        Item::IelEnable => stands(18, 0x80, 2, 1, 0, 0),
        Item::ReducedCounter => stands(19, 0x01, 64, 1, 0, 0),
        Item::Bias => stands(35, 0x01, 256, 1, 0, 0),
        Item::Relay => stands(1, 0x40, 2, 1, 0, 0),
        Item::Ground => stands(37, 0x01, 256, 8, 0, 0),
        Item::StopStepping => stands(36, 0x10, 2, 4, 0, 0),
        Item::StopLimit => stands(36, 0x10, 16, 4, 2, 0),
        Item::StopLevel => stands(36, 0x10, 16, 4, 3, 0),
        Item::Flap1 => stands(38, 0x10, 2, 32, 12, 0),
        Item::Flap2 => stands(38, 0x20, 2, 32, 12, 0),
        Item::Flap3 => stands(38, 0x40, 2, 32, 12, 0),
        Item::IelClock => stands(38, 0x80, 2, 32, 12, 0),
        Item::LastCheck => stands(38, 0x01, 256, 32, 21, 0),
        Item::InvalidCount => stands(38, 0x01, 256, 32, 22, 0),
        Item::HeadMask => stands(38, 0x10, 8, 32, 31, 0),
        Item::LongCounter => stands(38, 0x01, 256, 32, 3, 3),
        Item::FreeTime => stands(38, 0x01, 256, 32, 28, 1),
        Item::StartStepping => stands(36, 0x20, 2, 4, 0, 0),
        Item::StartLimit => stands(36, 0x01, 16, 4, 2, 0),
        Item::StartLevel => stands(36, 0x01, 16, 4, 3, 0),
        Item::DeflectionStepping => stands(36, 0x40, 2, 4, 0, 0),
        Item::DeflectionLimit => stands(36, 0x10, 16, 4, 1, 0),
        Item::DeflectionLevel => stands(36, 0x01, 16, 4, 1, 0),
    }
}

// The number that stands in an item's word.
fn field(frame: &[u8], p: Spot) -> u32
    requires { (length frame.now ≡ 40) × (p.byte < 39) × (0 < p.div) × (0 < p.rem) }
    ensures { result ≡ (get_or frame.now p.byte 0 * 256 + get_or frame.now (p.byte + 1) 0) / p.div % p.rem }
{
    let word = u16::from_be_bytes([frame[p.byte], frame[p.byte + 1]]);
    u32::from(word) / p.div % p.rem
}

// What 40 bytes tell of an item that one frame brings whole.
#[tactic(auto, using(crate::proofs::Spots::read_spread, crate::proofs::Spots::read_lacks, crate::proofs::Spots::read_brings, crate::proofs::Spots::read_short))]
pub fn read(frame: &[u8], item: Item) -> Option<u32>
    ensures { result ≡ read_of frame.now (row_of item) }
{
    if frame.len() != 40 {
        return None;
    }
    let i = frame[0] % 32;
    let p = spot_of(item);
    if p.born != 0 {
        return None;
    }
    if i % p.period != p.phase {
        return None;
    }
    Some(field(frame, p))
}
