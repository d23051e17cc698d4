// The next frame, built from what the rig holds.
// Keeps 01 "The 40-byte frame": the index rises modulo 32, a spread number is latched when its first frame is built, 18 uses no frame up.
#![tactic(auto)]

ghost use Rattle.std.specs.Prelude.{◌≡◌, ◌+◌, ◌%◌};
ghost use Rattle.sending.specs.Sending.{held_of, sent_with, built_of, filled_of};

use base::Spins;
use frame::{Held, Refusal};
use rig::{Rig, Sending};

// The rig after a frame was to be built, and whether it was: both, since a refusal too says what the rig then is (`built_of`).
#[derive(Clone, Copy)]
pub struct Built {
    pub rig: Rig,
    pub wrote: Result<(), Refusal>,
}

// The long EDB counter minus 1, modulo 64; 0 gives 63.
fn reduced(edbs: Spins) -> u8
    ensures { result ≡ (edbs.0 + 63) % 64 }
{
    (edbs.0.wrapping_sub(1) % 64) as u8
}

// What the rig holds of each item of a frame. Of the windows and multiplexers that is the register, not what was ordered (02 (ii)); the relay, which the
// three supplies have in common, is told from stop's record.
fn held_of(rig: Rig) -> Held
    ensures { result ≡ held_of rig }
{
    Held {
        parallel: u8::from(rig.core.settings.parallel),
        mux1: rig.register.mux.byte % 2,
        mux2: rig.register.mux.byte / 0x08 % 2,
        mux3: rig.register.mux.byte / 0x40 % 2,
        error: rig.faults.error,
        dstop: rig.register.direction.stop,
        dstart: rig.register.direction.start,
        estop: rig.register.energy.stop,
        estart: rig.register.energy.start,
        last: rig.faults.last,
        enable: u8::from(rig.core.settings.iel.enable),
        reduced: reduced(rig.edbs),
        bias: rig.panel.bias,
        relay: u8::from(rig.core.stop.relay),
        ground: rig.panel.ground,
        stopstepping: u8::from(rig.core.stop.stepping),
        stoplimit: rig.core.stop.limit,
        stoplevel: rig.core.stop.level,
        flap1: u8::from(rig.panel.flap1),
        flap2: u8::from(rig.panel.flap2),
        flap3: u8::from(rig.panel.flap3),
        clock: u8::from(rig.core.settings.iel.clock),
        check: rig.check,
        count: rig.faults.count,
        mask: rig.core.settings.mask,
        long: rig.edbs.0,
        free: rig.panel.free,
        startstepping: u8::from(rig.core.start.stepping),
        startlimit: rig.core.start.limit,
        startlevel: rig.core.start.level,
        deflectionstepping: u8::from(rig.core.deflection.stepping),
        deflectionlimit: rig.core.deflection.limit,
        deflectionlevel: rig.core.deflection.level,
    }
}

// The index of the frame after that one.
fn next_index(index: u8) -> u8
    ensures { result ≡ (index + 1) % 32 }
{
    index.wrapping_add(1) % 32
}

// The rig once the writer has answered: on 18 nothing is latched and no frame is used up.
fn sent_if(rig: Rig, latch: u32, wrote: Result<(), Refusal>) -> Rig
    ensures { result ≡ sent_with wrote rig latch }
{
    match wrote {
        Ok(()) => Rig {
            sending: Sending {
                next: next_index(rig.sending.next),
                latch,
            },
            ..rig
        },
        Err(_) => rig,
    }
}

// The next frame, written into the caller's buffer at the named place.
pub fn build(rig: Rig, buf: &mut [u8], at: usize) -> Built
    ensures { (result ≡ built_of rig buf.old at) × (buf.new ≡ filled_of rig buf.old at) }
{
    let held = held_of(rig);
    let sending = rig.sending;
    let next = sending.next;
    let latch = latching::latched(held, next, sending.latch);
    let wrote = writing::write_at(held, next, latch, buf, at);
    Built {
        rig: sent_if(rig, latch, wrote),
        wrote,
    }
}
