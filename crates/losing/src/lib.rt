// A frame built, and its slot marked missed at once.
// Keeps 01 "The 40-byte frame"; where there is no room (18) no slot passes. What the bench then is is said in crate `slots`.
#![tactic(auto)]

ghost use Rattle.std.specs.Prelude.{◌≡◌};
ghost use Rattle.sending.specs.Sending.{filled_of};
ghost use Rattle.slots.specs.Slots.{lost_bench, missed_slot};

use bench::Bench;
use desk::{Answer, Desk, Received};
use slots::{Passed, Slot};

// A slot that is marked missed.
#[derive(Clone, Copy)]
struct Missed;

impl Slot for Missed {
    ghost made = { missed_slot };

    fn pass(self, desk: Desk, _frame: &[u8]) -> Received {
        Received {
            answer: Answer::Missed,
            desk: desk::missed(desk),
        }
    }
}

// The next frame is built at a place of the caller's buffer, and its slot is marked missed. Where there is no room (18) no slot passes.
pub fn lost(bench: Bench, buf: &mut [u8], at: usize) -> Passed
    ensures { (result ≡ lost_bench bench buf.old at) × (buf.new ≡ filled_of bench.rig buf.old at) }
{
    slots::pass(bench, buf, at, Missed)
}
