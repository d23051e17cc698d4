// One item of the desk: what is held of it, and what that shows.
// Keeps 01 "The 40-byte frame", the items of its paragraph on the desk: unknown, or a value with its age in slots.
#![tactic(auto)]

ghost use Rattle.std.specs.Prelude.{◌≡◌};
ghost use Rattle.cell.specs.Cell.{blank, aged_of, latest_of, shown_by, cell_of, cell_after};

use base::Frames;

// What the desk shows of an item that is known: a value with its age in slots. An unknown item is `None`.
#[derive(Clone, Copy)]
pub struct Known {
    pub value: u32,
    pub age: Frames,
}

// What is held of an item: its value and its age. No age passes 65,535: a greater one stands for unknown.
#[derive(Clone, Copy)]
pub struct Cell {
    value: u32,
    age: Frames,
}

// The cell of an unknown item.
pub fn blank() -> Cell
    ensures { result ≡ blank }
{
    cell_of(None)
}

// What a cell shows.
pub fn shown_by(c: Cell) -> Option<Known>
    ensures { result ≡ shown_by c }
{
    if 65535 < c.age.0 {
        return None;
    }
    Some(Known {
        value: c.value,
        age: c.age,
    })
}

// What is shown, as a cell: an unknown item is held in one way.
fn cell_of(shown: Option<Known>) -> Cell
    ensures { result ≡ cell_of shown }
{
    match shown {
        None => Cell {
            value: 0,
            age: Frames(65536),
        },
        Some(Known { value, age }) => Cell { value, age },
    }
}

// One slot later.
fn aged(shown: Option<Known>) -> Option<Known>
    ensures { result ≡ aged_of shown }
{
    shown.map(|k| Known {
        value: k.value,
        age: base::slot_older(k.age),
    })
}

// What is shown after a slot that by itself shows `new`.
fn latest(new: Option<Known>, old: Option<Known>) -> Option<Known>
    ensures { result ≡ latest_of new old }
{
    new.or_else(|| aged(old))
}

// What is held after a slot that by itself shows `new`.
pub fn next(new: Option<Known>, old: Cell) -> Cell
    ensures { result ≡ cell_after new old }
{
    cell_of(latest(new, shown_by(old)))
}
