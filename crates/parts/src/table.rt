// Where each part of NM and of BM1 stands: place, length, first and last byte, or the number of the refusal.
// Keeps 01 "Data blocks": the parts are those of G's two position tables.
use block::{Kind, Part};
use std::io;

pub(crate) fn say_name(rt: &impl Print, part: Part) -> io::Result<()> {
    printing::name(rt, &part_names::part_name(part))
}

// The first byte and the last.
fn ends(rt: &impl Print, bytes: &[u8]) -> io::Result<()> {
    if let (Some(first), Some(last)) = (bytes.first(), bytes.last()) {
        print!(rt; " bytes {:02x} {:02x}", *first, *last)?;
    }
    Ok(())
}

// The rest of a line: place in hex, length, first and last byte; or the refusal.
fn show(rt: &impl Print, b: &[u8], part: Part) -> io::Result<()> {
    let located = locating::locate(b, part);
    match located {
        Ok(place) => print!(rt; " at {:03x} length {}", place.at, place.len)?,
        Err(why) => samples::say_refused(rt, why)?,
    }
    ends(rt, locating::slice_of(b, located))?;
    rt.println("")
}

fn list(rt: &impl Print, name: &str, kind: Kind, d1: u8, d2: u8) -> io::Result<()> {
    let b = samples::made(kind, d1, d2);
    for part in (0..part_names::PARTS).filter_map(|n| part_names::part_in(n)) {
        print!(rt; "{name} ")?;
        say_name(rt, part)?;
        show(rt, &b[..block::length_of(kind)], part)?;
    }
    Ok(())
}

// NM as a memory dump, which hides nearly all; then both layouts with nothing hidden, descriptor 2 being its own position too.
pub(crate) fn run(rt: &impl Print) -> io::Result<()> {
    list(rt, "NM-dump", Kind::Nm, 0x04, 0x4F)?;
    list(rt, "NM", Kind::Nm, 0x00, 0x4F)?;
    list(rt, "BM1", Kind::Bm1, 0x00, 0x54)
}
