// The 40-byte frame written: into the caller's buffer, at a place the caller names.
// Keeps 01 "The 40-byte frame"; a place with no room is 18. What stands in each byte is said in crate `frame`, and crate `composing` makes the bytes.
#![tactic(auto)]

ghost use Rattle.std.specs.Prelude.{◌≡◌};
ghost use Rattle.frame.specs.Write.{wrote_of, written};

use frame::{Held, Refusal};

// The frame at the front of a slice.
fn write(held: Held, index: u8, latch: u32, out: &mut [u8]) -> Result<(), Refusal>
    ensures { (result ≡ wrote_of 0 out.old) × (out.new ≡ written held index latch 0 out.old) }
{
    if out.len() < 40 {
        return Err(Refusal::NoRoom);
    }
    let f = composing::frame_bytes(held, index, latch);
    out[..40].copy_from_slice(&f);
    Ok(())
}

// The frame at a place of the caller's buffer; bytes outside stay the same.
pub fn write_at(held: Held, index: u8, latch: u32, buf: &mut [u8], at: usize) -> Result<(), Refusal>
    ensures { (result ≡ wrote_of at buf.old) × (buf.new ≡ written held index latch at buf.old) }
{
    if buf.len() < at {
        return Err(Refusal::NoRoom);
    }
    write(held, index, latch, &mut buf[at..])
}
