// A frame built, and handed to the desk at once.
// Keeps 01 "The 40-byte frame"; where there is no room (18) no slot passes. What the bench then is is said in crate `slots`.
#![tactic(auto)]

ghost use Rattle.std.specs.Prelude.{◌≡◌};
ghost use Rattle.sending.specs.Sending.{filled_of};
ghost use Rattle.desk.specs.Desk.{slot_of};
ghost use Rattle.slots.specs.Slots.{arrived_bench};

use bench::Bench;
use desk::{Desk, Received};
use slots::{Passed, Slot};

// A slot in which the frame comes whole.
#[derive(Clone, Copy)]
struct Whole;

impl Slot for Whole {
    ghost made = { slot_of };

    fn pass(self, desk: Desk, frame: &[u8]) -> Received {
        desk::slot(desk, frame)
    }
}

// The next frame is built at a place of the caller's buffer, and from there handed to the desk whole.
pub fn arrives(bench: Bench, buf: &mut [u8], at: usize) -> Passed
    ensures { (result ≡ arrived_bench bench buf.old at) × (buf.new ≡ filled_of bench.rig buf.old at) }
{
    slots::pass(bench, buf, at, Whole)
}
