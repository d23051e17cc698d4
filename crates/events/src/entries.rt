// The IFFT block: events and matrix items by number, each ground on which it is refused, and the parity of an item.
// Keeps 01 "Data blocks" (IFFT2) and rows 22 and 24 of "What the numbers mean".
use super::direct;
use block::{Kind, Refusal};
use event::MatrixItem;
use std::io;

// To the end of the line.
fn say_item(rt: &impl Print, answer: Result<MatrixItem, Refusal>) -> io::Result<()> {
    match answer {
        Ok(item) => {
            let state = if item.good { "good" } else { "bad" };
            print!(rt; " words {:04x} {:04x} {state}", item.first, item.second)?;
        }
        Err(why) => samples::say_refused(rt, why)?,
    }
    rt.println("")
}

// What is asked for: an event, or a matrix item.
#[derive(Clone, Copy)]
enum Entry {
    Event,
    Item,
}

fn say_entry(rt: &impl Print, b: &[u8], entry: Entry, n: usize) -> io::Result<()> {
    match entry {
        Entry::Event => {
            print!(rt; " IFFT event {n}")?;
            direct::say(rt, ifft::ifft_event(b, n))
        }
        Entry::Item => {
            print!(rt; " IFFT item {n}")?;
            say_item(rt, ifft::ifft_item(b, n))
        }
    }
}

// A line: what 24 looks at, and the entry of a number.
fn line(
    rt: &impl Print,
    kind: Kind,
    entry: Entry,
    d1: u8,
    counter: u8,
    count: u8,
    n: usize,
) -> io::Result<()> {
    let mut b = samples::made(kind, d1, 0);
    b[5] = counter;
    b[6] = count;
    samples::say_kind(rt, kind)?;
    print!(rt; " descriptor1 {d1:02x} counter {counter} count {count}")?;
    say_entry(rt, &b[..block::length_of(kind)], entry, n)
}

// Descriptor 1, count and number, at a spin counter.
fn rows(rt: &impl Print, entry: Entry, counter: u8, list: &[(u8, u8, usize)]) -> io::Result<()> {
    for (d1, count, n) in list {
        line(rt, Kind::Nm, entry, *d1, counter, *count, *n)?;
    }
    Ok(())
}

// In BM1 there is no IFFT block. In NM events come at 5, 7 and 9 alone, items at 6, 8 and 10.
fn counters(rt: &impl Print, entry: Entry, first: u8, count: u8) -> io::Result<()> {
    line(rt, Kind::Bm1, entry, 0x01, first, count, 0)?;
    for counter in 4..12 {
        line(rt, Kind::Nm, entry, 0x01, counter, count, 0)?;
    }
    Ok(())
}

// The one item of an IFFT block, with this second word.
fn item(rt: &impl Print, second: u16) -> io::Result<()> {
    let mut b = samples::made(Kind::Nm, 0x01, 0);
    b[5] = 6;
    b[6] = 1;
    let [high, low] = second.to_be_bytes();
    b[0x022] = high;
    b[0x023] = low;
    rt.print("NM")?;
    say_entry(rt, &b[..block::length_of(Kind::Nm)], Entry::Item, 0)
}

// Good or bad by the ones of the second word, the top bit included.
fn parity(rt: &impl Print, words: &[u16]) -> io::Result<()> {
    for word in words {
        item(rt, *word)?;
    }
    Ok(())
}

// The first and the last; past the last; no entry; one too many, where 24 comes before 22; bit 0 clear; bit 2 set; and bits 1 and 3, which hide
// parts, and not the IFFT block.
fn events(rt: &impl Print) -> io::Result<()> {
    let list = [
        (1, 85, 0),
        (1, 85, 84),
        (1, 85, 85),
        (1, 85, usize::MAX),
        (1, 0, 0),
        (1, 86, 0),
        (1, 86, 86),
        (0, 85, 0),
        (5, 85, 0),
        (11, 85, 0),
    ];
    rows(rt, Entry::Event, 5, &list)?;
    counters(rt, Entry::Event, 5, 85)
}

// The same of the items.
fn items(rt: &impl Print) -> io::Result<()> {
    let list = [
        (1, 64, 0),
        (1, 64, 63),
        (1, 64, 64),
        (1, 64, usize::MAX),
        (1, 0, 0),
        (1, 65, 0),
        (1, 65, 65),
        (0, 64, 0),
        (5, 64, 0),
        (11, 64, 0),
    ];
    rows(rt, Entry::Item, 6, &list)?;
    counters(rt, Entry::Item, 6, 64)
}

pub(crate) fn run(rt: &impl Print) -> io::Result<()> {
    events(rt)?;
    items(rt)?;
    parity(
        rt,
        &[
            0x0000, 0x0001, 0x0003, 0x8000, 0x8001, 0x8004, 0x7FFF, 0xFFFF,
        ],
    )
}
