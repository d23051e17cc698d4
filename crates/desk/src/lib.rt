// The desk: slots in, items out, each unknown or a value with its age.
// Keeps 01 "The 40-byte frame", its paragraph on the desk; a frame not of 40 bytes is 17, and no slot passes.
#![tactic(auto)]

ghost use Rattle.std.specs.Prelude.{◌≡◌, length};
ghost use Rattle.frame.specs.Items.{row_of};
ghost use Rattle.frame.specs.Read.{turn_of};
ghost use Rattle.desk.specs.Desk.{fresh_desk, shows, missed_of, heard_of, slot_of};

use cell::{Cell, Known};
use frame::{Arrived, ITEMS, Item, Refusal, Turn};
use half::Part;

#[derive(Clone, Copy)]
pub struct Desk {
    cells: [Cell; ITEMS],
    half: Option<Part>,
}

// What became of the bytes in a slot: three answers of one standing, so that a refusal is no `Err`.
#[derive(Clone, Copy)]
pub enum Answer {
    Heard,
    Missed,
    Refused(Refusal),
}

#[derive(Clone, Copy)]
pub struct Received {
    pub answer: Answer,
    pub desk: Desk,
}

pub fn fresh() -> Desk
    ensures { result ≡ fresh_desk }
{
    Desk {
        cells: [cell::blank(); ITEMS],
        half: None,
    }
}

// What the desk shows of an item.
pub fn look(desk: Desk, item: Item) -> Option<Known>
    ensures { result ≡ shows desk (row_of item) }
{
    cell::shown_by(cells::cell_at(desk.cells, frame::row_of(item)))
}

// A slot marked missed: nothing is half read.
pub fn missed(desk: Desk) -> Desk
    ensures { result ≡ missed_of desk }
{
    let cells = cells::older(desk.cells);
    Desk { cells, half: None }
}

// A whole frame, of this turn.
fn heard(desk: Desk, frame: &[u8], turn: Turn) -> Desk
    requires { (length frame.now ≡ 40) × (turn ≡ turn_of frame.now) }
    ensures { result ≡ heard_of desk frame.now }
{
    let cells = bringing::cells_after(desk.cells, frame, desk.half, turn);
    let half = half::half_after(desk.half, turn);
    Desk { cells, half }
}

// The bytes of a slot: a whole frame is heard, fill is a miss; where they are not 40, no slot passes.
#[tactic(auto, using(frame::proofs::Came::came_whole), unfolding(crate::specs::Desk::slot_of))]
pub fn slot(desk: Desk, frame: &[u8]) -> Received
    ensures { result ≡ slot_of desk frame.now }
{
    match arriving::arrival(frame) {
        Ok(Arrived::Whole(turn)) => Received {
            answer: Answer::Heard,
            desk: heard(desk, frame, turn),
        },
        Ok(Arrived::FillC0 | Arrived::FillFF) => Received {
            answer: Answer::Missed,
            desk: missed(desk),
        },
        Err(why) => Received {
            answer: Answer::Refused(why),
            desk,
        },
    }
}
