// The items of a frame by row and by name, for those who list them or ask for one.
// Keeps 01 "The 40-byte frame" and 02 (iv), their items in the order of their rows.
#![tactic(auto)]

ghost use Rattle.std.specs.Prelude.{◌≡◌, ◌≤◌};
ghost use Rattle.item_names.specs.Names.{name_of, item_in};

use frame::{ITEMS, Item};
use names::NAME;

// All of them, in the order of their rows.
pub static ALL: [Item; ITEMS] = [
    Item::Parallel,
    Item::Multiplexer1,
    Item::Multiplexer2,
    Item::Multiplexer3,
    Item::ErrorCode,
    Item::DirectionStop,
    Item::DirectionStart,
    Item::EnergyStop,
    Item::EnergyStart,
    Item::LastInvalidCode,
    Item::IelEnable,
    Item::ReducedCounter,
    Item::Bias,
    Item::Relay,
    Item::Ground,
    Item::StopStepping,
    Item::StopLimit,
    Item::StopLevel,
    Item::Flap1,
    Item::Flap2,
    Item::Flap3,
    Item::IelClock,
    Item::LastCheck,
    Item::InvalidCount,
    Item::HeadMask,
    Item::LongCounter,
    Item::FreeTime,
    Item::StartStepping,
    Item::StartLimit,
    Item::StartLevel,
    Item::DeflectionStepping,
    Item::DeflectionLimit,
    Item::DeflectionLevel,
];

// The item of a row, or none past the last.
pub fn item_in(row: usize) -> Option<Item>
    ensures { result ≡ item_in row }
{
    if row < ITEMS {
        return Some(ALL[row]);
    }
    None
}

// The name of an item, that of its case of `Item`, and blanks behind it.
pub fn name_of(item: Item) -> [u8; NAME]
    ensures { result ≡ name_of item }
{
    let names: &[u8] =
        b"Parallel            Multiplexer1        Multiplexer2        Multiplexer3        ErrorCode           DirectionStop       \
        DirectionStart      EnergyStop          EnergyStart         LastInvalidCode     IelEnable           ReducedCounter      \
        Bias                Relay               Ground              StopStepping        StopLimit           StopLevel           \
        Flap1               Flap2               Flap3               IelClock            LastCheck           InvalidCount        \
        HeadMask            LongCounter         FreeTime            StartStepping       StartLimit          StartLevel          \
        DeflectionStepping  DeflectionLimit     DeflectionLevel     ";
    names::name_in(names, frame::row_of(item))
}
