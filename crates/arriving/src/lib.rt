// What arrived in a slot: a whole frame with its index, fill, or bytes that are refused.
// Keeps 01 "The 40-byte frame": which bytes are fill; a frame not of 40 bytes is 17.
#![tactic(auto)]

ghost use Rattle.std.specs.Prelude.{◌≡◌, ◌==◌};
ghost use Rattle.std.specs.List.{list_all};
ghost use Rattle.frame.specs.Read.{arrived_of};

use frame::{Arrived, Refusal, Turn};

// Are the bytes all b?
fn filled(frame: &[u8], b: u8) -> bool
    ensures { result ≡ list_all (λ x. x == b) frame.now }
{
    frame.iter().all(|x| *x == b)
}

// What arrived: 40 equal bytes C0h or FFh are fill, though the low five bits of C0h would make frame 0.
#[tactic(auto, using(crate::proofs::Every::all_are_is), unfolding(frame::specs::Read::arrived_of))]
pub fn arrival(frame: &[u8]) -> Result<Arrived, Refusal>
    ensures { result ≡ arrived_of frame.now }
{
    if frame.len() != 40 {
        return Err(Refusal::NotForty);
    }
    if filled(frame, 0xC0) {
        return Ok(Arrived::FillC0);
    }
    if filled(frame, 0xFF) {
        return Ok(Arrived::FillFF);
    }
    Ok(Arrived::Whole(Turn {
        index: frame[0] % 32,
        byte39: frame[39],
    }))
}
