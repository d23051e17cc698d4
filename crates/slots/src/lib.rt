// The slots between rig and desk: a frame built, bytes handed to the desk, a slot missed. Crate `passing` has a frame built and its slot passed at once.
// Keeps 01 "The 40-byte frame"; the demands are said of these functions' definitions.
#![tactic(auto)]

ghost use Rattle.std.specs.Prelude.{◌≡◌, ℕ, List};
ghost use Rattle.desk.specs.declared.Desk.{Desk};
ghost use Rattle.desk.specs.declared.Received.{Received};
ghost use Rattle.sending.specs.Sending.{filled_of};
ghost use Rattle.slots.specs.Slots.{built_bench, handed_of, missed_bench, passed_by};

use bench::Bench;
use desk::Answer;
use frame::Refusal;

// After a frame was to be built: the bench, and whether there was room.
#[derive(Clone, Copy)]
pub struct Sent {
    pub bench: Bench,
    pub wrote: Result<(), Refusal>,
}

// After bytes were handed to the desk: the bench, and what the desk made of them.
#[derive(Clone, Copy)]
pub struct Handed {
    pub bench: Bench,
    pub answer: Answer,
}

// After a frame was built and its slot passed: what the desk made of the slot; or there was no frame (18), and no slot.
#[derive(Clone, Copy)]
pub struct Passed {
    pub bench: Bench,
    pub outcome: Result<Answer, Refusal>,
}

// The next frame is built at a place of the caller's buffer; it is for the caller to make a slot of it, whole or missed.
pub fn build(bench: Bench, buf: &mut [u8], at: usize) -> Sent
    ensures { (result ≡ built_bench bench buf.old at) × (buf.new ≡ filled_of bench.rig buf.old at) }
{
    let built = sending::build(bench.rig, buf, at);
    Sent {
        bench: Bench {
            rig: built.rig,
            ..bench
        },
        wrote: built.wrote,
    }
}

// Bytes come to the desk in a slot.
pub fn hand(bench: Bench, frame: &[u8]) -> Handed
    ensures { result ≡ handed_of bench frame.now }
{
    let received = desk::slot(bench.desk, frame);
    Handed {
        bench: Bench {
            desk: received.desk,
            ..bench
        },
        answer: received.answer,
    }
}

// A slot marked missed.
pub fn miss(bench: Bench) -> Bench
    ensures { result ≡ missed_bench bench }
{
    Bench {
        desk: desk::missed(bench.desk),
        ..bench
    }
}

// What comes of a slot: what the desk makes of the frame that was built for it.
pub trait Slot {
    ghost made: { Desk → List ℕ → Received };

    fn pass(self, desk: desk::Desk, frame: &[u8]) -> desk::Received
        ensures { result ≡ made desk frame.now };
}

// The next frame is built at a place of the caller's buffer, and its slot passes at once. Where there is no room (18) no slot passes.
pub fn pass<S: Slot + Copy>(bench: Bench, buf: &mut [u8], at: usize, slot: S) -> Passed
    ensures { (result ≡ passed_by S.made bench buf.old at) × (buf.new ≡ filled_of bench.rig buf.old at) }
{
    let sent = build(bench, buf, at);
    match sent.wrote {
        Ok(()) => {
            let passed = slot.pass(sent.bench.desk, &buf[at..at + 40]);
            Passed {
                bench: Bench {
                    desk: passed.desk,
                    ..sent.bench
                },
                outcome: Ok(passed.answer),
            }
        }
        Err(why) => Passed {
            bench: sent.bench,
            outcome: Err(why),
        },
    }
}
