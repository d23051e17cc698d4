// The latch: a number spread over frames, kept as it was when its first frame was built.
// Keeps 01 "The 40-byte frame", the latching of its spread numbers.
#![tactic(auto)]

ghost use Rattle.std.specs.Prelude.{◌≡◌};
ghost use Rattle.frame.specs.Write.{latch_of};

use frame::Held;

// The latch once the frame of this index is built: the first frame of a spread number takes that number.
// What is held, the index and the latch are no struct of three: the latch here is the one before the frame, and the writer's the one after it.
pub fn latched(held: Held, index: u8, latch: u32) -> u32
    ensures { result ≡ latch_of held index latch }
{
    let i = index % 32;
    if i == 0 {
        return held.long;
    }
    if i == 27 {
        return u32::from(held.free);
    }
    latch
}
