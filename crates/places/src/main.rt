// Frames built at a place of a larger buffer, and bytes of a wrong length handed to the desk; what is printed is held to the file `stdout`.
// Keeps 01 "What the numbers mean", rows 17 and 18: nothing changed, no frame used up.
#![tactic(auto)]

use bench::Bench;
use desk::{Answer, Desk};
use frame::{Arrived, Item, Refusal};
use std::io;

fn say_refused(rt: &impl Print, why: Refusal) -> io::Result<()> {
    print!(rt; " refused {}", frame::number(why))
}

// What a buffer of 44 bytes AAh holds after a frame at place 2.
fn show_around(rt: &impl Print, b: &[u8; 44]) -> io::Result<()> {
    print!(rt; "before")?;
    printing::bytes(rt, &b[..2])?;
    print!(rt; "\nframe")?;
    printing::bytes(rt, &b[2..42])?;
    print!(rt; "\nafter")?;
    printing::bytes(rt, &b[42..])?;
    printing::end(rt)
}

// The next frame to be built at a place of a buffer of 44 bytes AAh; at place 2 the buffer is shown.
fn place(rt: &impl Print, bench: Bench, at: usize) -> io::Result<Bench> {
    let mut buf = [0xAAu8; 44];
    let sent = slots::build(bench, &mut buf, at);
    print!(rt; "place {at}")?;
    match sent.wrote {
        Ok(()) => print!(rt; " written")?,
        Err(why) => say_refused(rt, why)?,
    }
    if buf == [0xAA; 44] {
        print!(rt; ", buffer as it was")?;
    }
    println!(rt; ", next frame {}", sent.bench.rig.sending.next)?;
    if at == 2 {
        show_around(rt, &buf)?;
    }
    Ok(sent.bench)
}

// Room to spare, an exact fit, a byte too few, the end, past it, the largest place; and once more with room.
fn rooms(rt: &impl Print) -> io::Result<()> {
    println!(rt; "a buffer of 44 bytes AAh")?;
    let mut b = bench::fresh();
    for at in [2, 4, 5, 44, 45, usize::MAX, 2] {
        b = place(rt, b, at)?;
    }
    Ok(())
}

// The index of a whole frame.
fn say_index(rt: &impl Print, s: &[u8]) -> io::Result<()> {
    match arriving::arrival(s) {
        Ok(Arrived::Whole(turn)) => print!(rt; " index {}", turn.index),
        Ok(Arrived::FillC0 | Arrived::FillFF) => print!(rt; " fill"),
        Err(_) => Ok(()),
    }
}

// Bytes handed to the desk, with what it then shows of the ground byte, which only frames 0, 8, 16 and 24 bring.
fn hand(rt: &impl Print, desk: Desk, name: &str, s: &[u8]) -> io::Result<Desk> {
    let handed = desk::slot(desk, s);
    print!(rt; "{name}")?;
    say_index(rt, s)?;
    match handed.answer {
        Answer::Heard => print!(rt; " heard")?,
        Answer::Missed => print!(rt; " missed")?,
        Answer::Refused(why) => say_refused(rt, why)?,
    }
    print!(rt; ", ")?;
    showing::say(rt, handed.desk, Item::Ground)?;
    printing::end(rt)?;
    Ok(handed.desk)
}

fn lengths(rt: &impl Print) -> io::Result<()> {
    println!(rt; "bytes handed to the desk")?;
    let mut unlike = [0xC0u8; 40];
    unlike[39] = 0xC1;
    let mut desk = desk::fresh();
    desk = hand(rt, desk, "39 bytes 00h", &[0x00; 39])?;
    desk = hand(rt, desk, "41 bytes 00h", &[0x00; 41])?;
    desk = hand(rt, desk, "40 bytes 00h", &[0x00; 40])?;
    desk = hand(rt, desk, "40 bytes C0h", &[0xC0; 40])?;
    desk = hand(rt, desk, "40 bytes FFh", &[0xFF; 40])?;
    hand(rt, desk, "39 bytes C0h and one C1h", &unlike)?;
    Ok(())
}

fn main(rt: HostRuntime) -> io::Result<()> {
    rooms(&rt)?;
    lengths(&rt)
}
