// The 40 bytes composed from what is held and from the latch.
// Keeps 01 "The 40-byte frame" and 02 (iv). What stands in each byte is said in crate `frame`; crate `writing` puts the bytes into the caller's buffer.
#![tactic(auto)]

ghost use Rattle.std.specs.Prelude.{◌≡◌, ◌%◌};
ghost use Rattle.frame.specs.Write.{quarter_of, ground_at, mux_of, frame_of};

use frame::Held;

#[tactic(auto, unfolding(frame::specs::Write::quarter_of))]
fn byte_37(held: Held, index: u8) -> u8
    ensures { result ≡ quarter_of held (index % 4) }
{
    let i = index % 4;
    match i {
        0 => held.stopstepping % 2 * 0x10
            + held.startstepping % 2 * 0x20
            + held.deflectionstepping % 2 * 0x40,
        1 => held.deflectionlimit % 16 * 0x10 + held.deflectionlevel % 16,
        2 => held.stoplimit % 16 * 0x10 + held.startlimit % 16,
        3 => held.stoplevel % 16 * 0x10 + held.startlevel % 16,
        _ => 0,
    }
}

#[tactic(auto, unfolding(frame::specs::Write::ground_at))]
fn byte_38(held: Held, index: u8) -> u8
    ensures { result ≡ ground_at held (index % 8) }
{
    let i = index % 8;
    match i {
        0 => held.ground,
        _ => 0,
    }
}

#[tactic(auto, unfolding(frame::specs::Write::mux_of))]
fn byte_39(held: Held, index: u8, latch: u32) -> u8
    ensures { result ≡ mux_of held latch (index % 32) }
{
    let i = index % 32;
    let spread = latch.to_be_bytes();
    match i {
        0 => spread[0],
        1 => spread[1],
        2 => spread[2],
        3 => spread[3],
        12 => held.flap1 % 2 * 0x10
            + held.flap2 % 2 * 0x20
            + held.flap3 % 2 * 0x40
            + held.clock % 2 * 0x80,
        21 => held.check,
        22 => held.count,
        27 => spread[2],
        28 => spread[3],
        31 => held.mask % 8 * 0x10,
        _ => 0,
    }
}

// The 40 bytes. Bits that 01 does not name stay 0.
#[tactic(auto, unfolding(frame::specs::Write::frame_of))]
pub fn frame_bytes(held: Held, index: u8, latch: u32) -> [u8; 40]
    ensures { result ≡ frame_of held index latch }
{
    let mut f = [0u8; 40];
    f[0] = index % 32;
    f[1] = held.parallel % 2 * 0x40;
    f[2] = held.relay % 2 * 0x40;
    f[6] = held.mux1 % 2 * 0x01 + held.mux2 % 2 * 0x08 + held.mux3 % 2 * 0x40;
    f[7] = held.error % 16 * 0x10;
    f[8] = held.dstop % 32 / 2;
    f[9] = held.dstop % 2 * 0x80 + held.dstart % 32 * 0x04 + held.estop % 32 / 8;
    f[10] = held.estop % 8 * 0x20 + held.estart % 32;
    f[16] = held.last;
    f[19] = held.enable % 2 * 0x80;
    f[20] = held.reduced % 64;
    f[36] = held.bias;
    f[37] = byte_37(held, index);
    f[38] = byte_38(held, index);
    f[39] = byte_39(held, index, latch);
    f
}
