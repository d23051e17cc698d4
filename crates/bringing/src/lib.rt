// What a whole frame brings: the cells of all items after it, row by row.
// Keeps 01 "The 40-byte frame", its paragraph on the desk: a plain item is as old as its frame, a spread number as its first frame.
#![tactic(auto)]

ghost use Rattle.std.specs.Prelude.{◌≡◌, get_or};
ghost use Rattle.frame.specs.Items.{row_of};
ghost use Rattle.frame.specs.Read.{read_of};
ghost use Rattle.cell.specs.Cell.{blank, cell_after};
ghost use Rattle.cells.specs.Cells.{cells_after};
ghost use Rattle.bringing.specs.Bringing.{plain_of, told_by};

use base::Frames;
use cell::{Cell, Known};
use frame::{ITEMS, Item, Turn};
use half::{Part, spread};

// What is read of a plain item, as old as its frame.
fn plain(read: Option<u32>) -> Option<Known>
    ensures { result ≡ plain_of read }
{
    read.map(|value| Known {
        value,
        age: Frames(0),
    })
}

// An item's cell after a slot that by itself shows this of it.
fn told(old: [Cell; ITEMS], item: Item, shown: Option<Known>) -> Cell
    ensures { result ≡ cell_after shown (get_or old (row_of item) blank) }
{
    cell::next(shown, cells::cell_at(old, frame::row_of(item)))
}

// A plain item's cell after bytes that came.
fn plain_cell(old: [Cell; ITEMS], item: Item, slot: &[u8]) -> Cell
    ensures { result ≡ cell_after (plain_of (read_of slot.now (row_of item))) (get_or old (row_of item) blank) }
{
    told(old, item, plain(reading::read(slot, item)))
}

// The cells after a whole frame, row by row: each is written once, and no table is built.
pub fn cells_after(old: [Cell; ITEMS], slot: &[u8], half: Option<Part>, turn: Turn) -> [Cell; ITEMS]
    ensures { result ≡ cells_after (told_by half slot.now turn.index turn.byte39) old }
{
    [
        plain_cell(old, Item::Parallel, slot),
        plain_cell(old, Item::Multiplexer1, slot),
        plain_cell(old, Item::Multiplexer2, slot),
        plain_cell(old, Item::Multiplexer3, slot),
        plain_cell(old, Item::ErrorCode, slot),
        plain_cell(old, Item::DirectionStop, slot),
        plain_cell(old, Item::DirectionStart, slot),
        plain_cell(old, Item::EnergyStop, slot),
        plain_cell(old, Item::EnergyStart, slot),
        plain_cell(old, Item::LastInvalidCode, slot),
        plain_cell(old, Item::IelEnable, slot),
        plain_cell(old, Item::ReducedCounter, slot),
        plain_cell(old, Item::Bias, slot),
        plain_cell(old, Item::Relay, slot),
        plain_cell(old, Item::Ground, slot),
        plain_cell(old, Item::StopStepping, slot),
        plain_cell(old, Item::StopLimit, slot),
        plain_cell(old, Item::StopLevel, slot),
        plain_cell(old, Item::Flap1, slot),
        plain_cell(old, Item::Flap2, slot),
        plain_cell(old, Item::Flap3, slot),
        plain_cell(old, Item::IelClock, slot),
        plain_cell(old, Item::LastCheck, slot),
        plain_cell(old, Item::InvalidCount, slot),
        plain_cell(old, Item::HeadMask, slot),
        told(old, Item::LongCounter, spread(half, turn, 3, Frames(3))),
        told(old, Item::FreeTime, spread(half, turn, 28, Frames(1))),
        plain_cell(old, Item::StartStepping, slot),
        plain_cell(old, Item::StartLimit, slot),
        plain_cell(old, Item::StartLevel, slot),
        plain_cell(old, Item::DeflectionStepping, slot),
        plain_cell(old, Item::DeflectionLimit, slot),
        plain_cell(old, Item::DeflectionLevel, slot),
    ]
}
