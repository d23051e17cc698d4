// The 40-byte housekeeping frame: what it shows. Crate `writing` writes it, `arriving` tells what arrived in a slot, `reading` reads the items.
// Keeps 01 "The 40-byte frame", and the places of 02 (iv); the numbers 17 and 18.
#![tactic(auto)]

ghost use Rattle.std.specs.Prelude.{◌≡◌};
ghost use Rattle.frame.specs.Items.{row_of, number_of};

// What a frame shows: the present value of each item, in the order of the rows. A switch is 0 or 1.
#[derive(Clone, Copy)]
pub struct Held {
    pub parallel: u8,
    pub mux1: u8,
    pub mux2: u8,
    pub mux3: u8,
    pub error: u8,
    pub dstop: u8,
    pub dstart: u8,
    pub estop: u8,
    pub estart: u8,
    pub last: u8,
    pub enable: u8,
    // the EDB counter minus 1, modulo 64
    pub reduced: u8,
    pub bias: u8,
    pub relay: u8,
    pub ground: u8,
    pub stopstepping: u8,
    pub stoplimit: u8,
    pub stoplevel: u8,
    pub flap1: u8,
    pub flap2: u8,
    pub flap3: u8,
    pub clock: u8,
    pub check: u8,
    pub count: u8,
    pub mask: u8,
    pub long: u32,
    pub free: u16,
    pub startstepping: u8,
    pub startlimit: u8,
    pub startlevel: u8,
    pub deflectionstepping: u8,
    pub deflectionlimit: u8,
    pub deflectionlevel: u8,
}

// How many items there are.
pub const ITEMS: usize = 33;

#[derive(Clone, Copy)]
pub enum Item {
    Parallel,
    Multiplexer1,
    Multiplexer2,
    Multiplexer3,
    ErrorCode,
    DirectionStop,
    DirectionStart,
    EnergyStop,
    EnergyStart,
    LastInvalidCode,
    IelEnable,
    ReducedCounter,
    Bias,
    Relay,
    Ground,
    StopStepping,
    StopLimit,
    StopLevel,
    Flap1,
    Flap2,
    Flap3,
    IelClock,
    LastCheck,
    InvalidCount,
    HeadMask,
    LongCounter,
    FreeTime,
    StartStepping,
    StartLimit,
    StartLevel,
    DeflectionStepping,
    DeflectionLimit,
    DeflectionLevel,
}

#[derive(Clone, Copy)]
pub enum Refusal {
    NotForty,
    NoRoom,
}

// A frame's turn in the round of 32: its index, and byte 39, whose meaning goes by the index.
#[derive(Clone, Copy)]
pub struct Turn {
    pub index: u8,
    pub byte39: u8,
}

// What arrived in a slot, where it is 40 bytes: a whole frame, or fill.
#[derive(Clone, Copy)]
pub enum Arrived {
    Whole(Turn),
    FillC0,
    FillFF,
}

// The number of a refusal (01, "What the numbers mean").
pub fn number(refusal: Refusal) -> u8
    ensures { result ≡ number_of refusal }
{
    match refusal {
        Refusal::NotForty => 17,
        Refusal::NoRoom => 18,
    }
}

pub fn row_of(item: Item) -> usize
    ensures { result ≡ row_of item }
{
    match item {
        Item::Parallel => 0,
        Item::Multiplexer1 => 1,
        Item::Multiplexer2 => 2,
        Item::Multiplexer3 => 3,
        Item::ErrorCode => 4,
        Item::DirectionStop => 5,
        Item::DirectionStart => 6,
        Item::EnergyStop => 7,
        Item::EnergyStart => 8,
        Item::LastInvalidCode => 9,
        Item::IelEnable => 10,
        Item::ReducedCounter => 11,
        Item::Bias => 12,
        Item::Relay => 13,
        Item::Ground => 14,
        Item::StopStepping => 15,
        Item::StopLimit => 16,
        Item::StopLevel => 17,
        Item::Flap1 => 18,
        Item::Flap2 => 19,
        Item::Flap3 => 20,
        Item::IelClock => 21,
        Item::LastCheck => 22,
        Item::InvalidCount => 23,
        Item::HeadMask => 24,
        Item::LongCounter => 25,
        Item::FreeTime => 26,
        Item::StartStepping => 27,
        Item::StartLimit => 28,
        Item::StartLevel => 29,
        Item::DeflectionStepping => 30,
        Item::DeflectionLimit => 31,
        Item::DeflectionLevel => 32,
    }
}
