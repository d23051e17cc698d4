// What each bit of the two descriptors hides by itself, in NM and in BM1; and what some bits hide together.
// Keeps 01 "Data blocks": test data hides parts (23).
use super::table;
use block::{Kind, Refusal};
use std::io;

// The names of the hidden parts, to the end of the line.
fn say_hidden(rt: &impl Print, b: &[u8]) -> io::Result<()> {
    rt.print(" hides")?;
    let mut none = true;
    for part in (0..part_names::PARTS).filter_map(|n| part_names::part_in(n)) {
        if let Err(Refusal::Hidden) = locating::locate(b, part) {
            rt.print(" ")?;
            table::say_name(rt, part)?;
            none = false;
        }
    }
    if none {
        rt.print(" nothing")?;
    }
    rt.println("")
}

// A bit by itself, in the descriptor of this name.
fn alone(rt: &impl Print, kind: Kind, name: &str, bit: u32, d1: u8, d2: u8) -> io::Result<()> {
    let b = samples::made(kind, d1, d2);
    samples::say_kind(rt, kind)?;
    print!(rt; " {name} bit {bit}")?;
    say_hidden(rt, &b[..block::length_of(kind)])
}

// Each bit by itself, in each descriptor of each kind.
fn each(rt: &impl Print) -> io::Result<()> {
    for bit in 0..8u32 {
        let weight = 1u8 << bit;
        alone(rt, Kind::Nm, "descriptor1", bit, weight, 0)?;
        alone(rt, Kind::Nm, "descriptor2", bit, 0, weight)?;
        alone(rt, Kind::Bm1, "descriptor1", bit, weight, 0)?;
        alone(rt, Kind::Bm1, "descriptor2", bit, 0, weight)?;
    }
    Ok(())
}

// What the block is found to be, and what is hidden.
fn say_layout(rt: &impl Print, b: &[u8]) -> io::Result<()> {
    match layout::layout_of(b) {
        Ok(layout) => {
            rt.print(" read as ")?;
            samples::say_kind(rt, layout.kind)?;
            print!(rt; " {:02x} {:02x}", layout.d1, layout.d2)?;
        }
        Err(why) => samples::say_refused(rt, why)?,
    }
    say_hidden(rt, b)
}

fn two(rt: &impl Print, kind: Kind, d1: u8, d2: u8) -> io::Result<()> {
    let b = samples::made(kind, d1, d2);
    samples::say_kind(rt, kind)?;
    print!(rt; " descriptors {d1:02x} {d2:02x}")?;
    say_layout(rt, &b[..block::length_of(kind)])
}

// Descriptor 1 and descriptor 2. In a dump the second is not looked at; else bits together hide what each of them hides.
fn together(rt: &impl Print, list: &[(u8, u8)]) -> io::Result<()> {
    for (d1, d2) in list {
        two(rt, Kind::Nm, *d1, *d2)?;
        two(rt, Kind::Bm1, *d1, *d2)?;
    }
    Ok(())
}

pub(crate) fn run(rt: &impl Print) -> io::Result<()> {
    each(rt)?;
    together(
        rt,
        &[
            (0x04, 0x80),
            (0x01, 0x80),
            (0x08, 0x80),
            (0x09, 0x00),
            (0x02, 0x80),
        ],
    )
}
