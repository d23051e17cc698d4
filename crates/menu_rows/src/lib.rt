// The rows of the menu, from which the class picks: the command of a row with its settings, and the row of a command.
// Keeps 02 (i): a named command with its settings; (iv): three rows for each supply. The relay has a row for each setting of its two bits, so that no
// number is typed for it.
#![tactic(auto)]

ghost use Rattle.std.specs.Prelude.{◌≡◌, ◌≤◌};
ghost use Rattle.menu_rows.specs.Rows.{wanted, made, relay_row, first_row, entry_at, entry_of};

use judge::Which;
use wording::Command;

// A command as it stands in the menu: its row, and its settings, 0 where it has none.
// The row is its number, and no enum: `Found`, `Back` and `name_of` speak of it as the place in the list of names.
#[derive(Clone, Copy, PartialEq, Eq)]
pub struct Entry {
    pub row: usize,
    pub first: u8,
    pub second: u8,
}

// How many settings go with a row.
pub fn settings(row: usize) -> usize
    ensures { result ≡ wanted row }
{
    match row {
        0..=3 => 0,
        4..=14 => 1,
        _ => 2,
    }
}

// The command of a row, with its settings.
#[tactic(auto, unfolding(crate::specs::Rows::made))]
pub fn command(e: Entry) -> Command
    ensures { result ≡ made e.row e.first e.second }
{
    let Entry { row, first, second } = e;
    match row {
        0 => Command::Relay(1, 0),
        1 => Command::Relay(0, 1),
        2 => Command::Relay(1, 1),
        3 => Command::Relay(0, 0),
        4 => Command::HeadMask(first),
        5 => Command::Target(Which::Stop, first),
        6 => Command::Limit(Which::Stop, first),
        7 => Command::Stepping(Which::Stop, first),
        8 => Command::Target(Which::Start, first),
        9 => Command::Limit(Which::Start, first),
        10 => Command::Stepping(Which::Start, first),
        11 => Command::Target(Which::Deflection, first),
        12 => Command::Limit(Which::Deflection, first),
        13 => Command::Stepping(Which::Deflection, first),
        14 => Command::Mode(first),
        15 => Command::Iel(first, second),
        16 => Command::Multiplexers(first, second),
        17 => Command::DirectionWindow(first, second),
        _ => Command::EnergyWindow(first, second),
    }
}

fn relay_row(on: u8, off: u8) -> usize
    ensures { result ≡ relay_row on off }
{
    match (on, off) {
        (1, 1) => 2,
        (1, _) => 0,
        (_, 1) => 1,
        _ => 3,
    }
}

// The row of a supply's target; its limit and its stepping stand in the next two.
fn first_row(which: Which) -> usize
    ensures { (result ≡ first_row which) × (result ≤ 11) }
{
    match which {
        Which::Stop => 5,
        Which::Start => 8,
        Which::Deflection => 11,
    }
}

fn at_row(row: usize, first: u8, second: u8) -> Entry
    ensures { result ≡ entry_at row first second }
{
    Entry { row, first, second }
}

// The row of a command, and its settings.
pub fn entry_of(c: Command) -> Entry
    ensures { result ≡ entry_of c }
{
    match c {
        Command::Relay(on, off) => at_row(relay_row(on, off), 0, 0),
        Command::HeadMask(mask) => at_row(4, mask, 0),
        Command::Target(x, target) => at_row(first_row(x), target, 0),
        Command::Limit(x, limit) => at_row(first_row(x) + 1, limit, 0),
        Command::Stepping(x, low) => at_row(first_row(x) + 2, low, 0),
        Command::Mode(low) => at_row(14, low, 0),
        Command::Iel(clock, enable) => at_row(15, clock, enable),
        Command::Multiplexers(byte, bit) => at_row(16, byte, bit),
        Command::DirectionWindow(start, stop) => at_row(17, start, stop),
        Command::EnergyWindow(start, stop) => at_row(18, start, stop),
    }
}
