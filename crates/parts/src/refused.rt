// Bytes that are no block, each asked for a part, for events and for an item: what is wrong with the block comes first.
// Keeps rows 19 to 21 of 01 "What the numbers mean", and its order: 20 (under 3), 19, 20, 21, 24, 22, 23.
use block::{Kind, Part, Refusal};
use std::io;

// What one asking got: that it was found, or the number of the refusal.
fn say<T: Copy>(rt: &impl Print, name: &str, answer: Result<T, Refusal>) -> io::Result<()> {
    match answer {
        Ok(_) => print!(rt; "{name} found"),
        Err(why) => print!(rt; "{name} {}", block::number(why)),
    }
}

// The rest of a line: what each asking gets. SGL0 is not in BM1, and event 106 in neither layout.
fn ask(rt: &impl Print, b: &[u8]) -> io::Result<()> {
    print!(rt; ", length {}", b.len())?;
    say(rt, ": marker", locating::locate(b, Part::Marker))?;
    say(rt, ", SGL0", locating::locate(b, Part::Sgl0))?;
    say(rt, ", event 0", event::direct_event(b, 0))?;
    say(rt, ", event 106", event::direct_event(b, 106))?;
    say(rt, ", IFFT event 0", ifft::ifft_event(b, 0))?;
    say(rt, ", IFFT item 0", ifft::ifft_item(b, 0))?;
    rt.println("")
}

// A marker, then zeros, at each of these lengths. A BM1 block of zeros has no inner marker.
fn lengths(rt: &impl Print, marker: [u8; 3], list: &[usize]) -> io::Result<()> {
    let mut b = [0u8; 2305];
    b[..3].copy_from_slice(&marker);
    for n in list {
        rt.print("zeros after ")?;
        for byte in &marker {
            print!(rt; "{:02x}", *byte)?;
        }
        ask(rt, b.get(..*n).unwrap_or(&[]))?;
    }
    Ok(())
}

// A BM1 block with one byte set to 0, at a length.
fn spoil(rt: &impl Print, at: usize, d1: u8, n: usize) -> io::Result<()> {
    let mut b = samples::made(Kind::Bm1, d1, 0);
    if let Some(byte) = b.get_mut(at) {
        *byte = 0;
    }
    print!(rt; "BM1 descriptor1 {d1:02x} byte {at:03x} wrong")?;
    ask(rt, b.get(..n).unwrap_or(&[]))
}

// The bytes of the two inner markers, each wrong by itself: in a block, in one that is too short, and in a memory dump.
fn inner(rt: &impl Print, list: &[usize]) -> io::Result<()> {
    for at in list {
        spoil(rt, *at, 0x00, 2304)?;
        spoil(rt, *at, 0x00, 2303)?;
        spoil(rt, *at, 0x04, 2304)?;
    }
    Ok(())
}

// NM's marker, BM1's, and three that are neither.
pub(crate) fn run(rt: &impl Print) -> io::Result<()> {
    lengths(rt, [0x14, 0x6F, 0x2E], &[0, 2, 3, 511, 512, 513, 2304])?;
    lengths(rt, [0x14, 0x6F, 0x3D], &[0, 2, 3, 512, 2303, 2304, 2305])?;
    lengths(rt, [0x14, 0x6F, 0x8B], &[0, 2, 3, 512, 2304])?;
    lengths(rt, [0x15, 0x6F, 0x2E], &[2, 3, 512])?;
    lengths(rt, [0x14, 0x6E, 0x2E], &[2, 3, 512])?;
    inner(rt, &[0x212, 0x213, 0x214, 0x475, 0x476, 0x477])
}
