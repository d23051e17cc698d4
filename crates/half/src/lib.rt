// A number that is spread over frames: what is half read of it, and when it is complete.
// Keeps 01 "The 40-byte frame", the spread numbers of its paragraph on the desk: they begin at their first frame, and an index out of turn discards them.
#![tactic(auto)]

ghost use Rattle.std.specs.Prelude.{◌≡◌, ◌<◌};
ghost use Rattle.half.specs.Half.{begins, grown_of, born_at, spread_of, kept_at, partly, half_at};

use base::Frames;
use cell::Known;
use frame::Turn;

// What is half read of a number spread over frames: the index that must come next, and the bytes so far.
#[derive(Clone, Copy)]
pub struct Part {
    pub next: u8,
    pub bytes: u32,
}

// Whether a spread number begins at the frame of index i.
fn is_first(i: u8) -> bool
    ensures { result ≡ begins i }
{
    matches!(i, 0 | 27)
}

// The bytes so far of the spread number, with that of the frame of this turn: it begins only at its first frame.
fn grown(half: Option<Part>, turn: Turn) -> Option<u32>
    ensures { result ≡ grown_of half turn.index turn.byte39 }
{
    let byte = u32::from(turn.byte39);
    if is_first(turn.index) {
        return Some(byte);
    }
    let part = half?;
    if part.next != turn.index {
        return None;
    }
    Some(part.bytes % 0x1000000 * 256 + byte)
}

// Whether a spread number is half read after the frame of index i.
fn is_partly(i: u8) -> bool
    ensures { result ≡ partly i }
{
    i < 3 || i == 27
}

// What is half read after a whole frame of this turn.
pub fn half_after(half: Option<Part>, turn: Turn) -> Option<Part>
    ensures { result ≡ half_at half turn.index turn.byte39 }
{
    if is_partly(turn.index) {
        return Some(Part {
            next: turn.index + 1,
            bytes: grown(half, turn)?,
        });
    }
    None
}

// A spread number, complete at the frame of index `last`, its first frame then of that age.
pub fn spread(half: Option<Part>, turn: Turn, last: u8, age: Frames) -> Option<Known>
    ensures { result ≡ spread_of half turn.index turn.byte39 last age }
{
    if turn.index != last {
        return None;
    }
    let value = grown(half, turn)?;
    Some(Known { value, age })
}
