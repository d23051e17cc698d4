// A sample block of each kind, whose bytes are their own positions but for the markers and the descriptors; and what programs print of kinds and refusals.
// Keeps 01 "Data blocks": lengths, markers, and where the descriptors stand.
#![tactic(auto)]

ghost use Rattle.std.specs.Prelude.{◌≡◌, length};
ghost use Rattle.samples.specs.Made.{positions, made_of};

use block::{Kind, Refusal};
use std::io;

// Each byte its own position (its low eight bits).
fn fill(b: &mut [u8])
    ensures { b.new ≡ positions (length b.old) b.old }
{
    for (i, x) in b.iter_mut().enumerate() {
        *x = (i % 256) as u8;
    }
}

// The block, and bytes behind it where it is shorter than the longest. Both inner markers lie there in NM.
pub fn made(kind: Kind, d1: u8, d2: u8) -> [u8; 2304]
    ensures { result ≡ made_of kind d1 d2 }
{
    let mut b = [0u8; 2304];
    fill(&mut b);
    b[0] = 0x14;
    b[1] = 0x6F;
    b[2] = block::marker_of(kind);
    b[4] = d1;
    match kind {
        Kind::Nm => b[0x14F] = d2,
        Kind::Bm1 => b[0x154] = d2,
    }
    b[0x212] = 0x4C;
    b[0x213] = 0x43;
    b[0x214] = 0xE2;
    b[0x475] = 0x54;
    b[0x476] = 0xE1;
    b[0x477] = 0xE1;
    b
}

// No Display of `block`: its users print nothing, and two programs need these two texts.
pub fn say_kind(rt: &impl Print, kind: Kind) -> io::Result<()> {
    match kind {
        Kind::Nm => printing::text(rt, b"NM"),
        Kind::Bm1 => printing::text(rt, b"BM1"),
    }
}

pub fn say_refused(rt: &impl Print, why: Refusal) -> io::Result<()> {
    printing::number_after(rt, b" refused ", block::number(why))
}
