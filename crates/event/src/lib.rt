// Direct events, read by number from a data block; and what an entry is that is read by number, of the IFFT block too.
// Keeps 01 "Data blocks" (direct events) and the rows 22 and 23 of "What the numbers mean".
#![tactic(auto)]

ghost use Rattle.std.specs.Prelude.{◌≡◌};
ghost use Rattle.event.specs.Event.{direction_of, event_from, event_in, events_in, direct_of};
ghost use Rattle.event.specs.Steps.{direct_at};

use block::{Kind, Layout, Part, Refusal};

// A head 1 to 3 with its finer direction 0 to 3, a head alone, or unknown.
#[derive(Clone, Copy)]
pub enum Direction {
    Head(u8, u8),
    HeadOnly(u8),
    Unknown,
}

#[derive(Clone, Copy)]
pub struct Event {
    pub energy: u8,
    pub time: u8,
    pub sector: u8,
    pub direction: Direction,
}

// Two words of the compressed matrix, marked bad where the parity of the second is wrong.
#[derive(Clone, Copy)]
pub struct MatrixItem {
    pub first: u16,
    pub second: u16,
    pub good: bool,
}

fn direction_of(d: u8) -> Direction
    ensures { result ≡ direction_of d }
{
    if d < 12 {
        return Direction::Head(d / 4 + 1, d % 4);
    }
    if d < 15 {
        return Direction::HeadOnly(d - 11);
    }
    Direction::Unknown
}

// The event of three bytes; the third has the sector in its high four bits, and D.
fn event_from(energy: u8, time: u8, third: u8) -> Event
    ensures { result ≡ event_from energy time third }
{
    let direction = direction_of(third % 16);
    Event {
        energy,
        time,
        sector: third / 16,
        direction,
    }
}

// The event at an entry; 22 where its three bytes are not all there.
pub fn event_in(b: &[u8], entry: Result<usize, Refusal>) -> Result<Event, Refusal>
    ensures { result ≡ event_in b.now entry }
{
    let at = entry?;
    match b.get(at..) {
        Some([energy, time, third, ..]) => Ok(event_from(*energy, *time, *third)),
        _ => Err(Refusal::Beyond),
    }
}

// How many direct events fill their part where nothing hides it: 20 in NM, 106 in BM1.
#[tactic(auto, using(crate::proofs::Laws::counted, crate::proofs::Laws::always))]
fn events_in(kind: Kind) -> usize
    ensures { result ≡ events_in kind }
{
    let open = Layout { kind, d1: 0, d2: 0 };
    placing::place_of(open, Part::DirectEvents).map_or(0, |place| place.len / 3)
}

// Where the direct event of a number begins, or why it is refused. 22 before 23: a number beyond the last is never called hidden.
#[tactic(auto, using(crate::proofs::Laws::direct_refused, crate::proofs::Laws::direct_beyond, crate::proofs::Laws::direct_hidden, crate::proofs::Laws::direct_found))]
fn direct_at(b: &[u8], n: usize) -> Result<usize, Refusal>
    ensures { result ≡ direct_at b.now n }
{
    let layout = layout::layout_of(b)?;
    if events_in(layout.kind) <= n {
        return Err(Refusal::Beyond);
    }
    let place = placing::place_of(layout, Part::DirectEvents)?;
    Ok(place.at + 3 * n)
}

// The direct event of a number, from 0.
#[tactic(auto, using(crate::proofs::Laws::direct_is))]
pub fn direct_event(b: &[u8], n: usize) -> Result<Event, Refusal>
    ensures { result ≡ direct_of b.now n }
{
    event_in(b, direct_at(b, n))
}
