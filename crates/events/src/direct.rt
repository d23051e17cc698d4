// Direct events by number, in NM and in BM1: the first, the last, beyond it, and where test data hides them; and every direction.
// Keeps 01 "Data blocks": a direct event is energy, time, sector and D; rows 22 and 23 of "What the numbers mean".
use block::{Kind, Refusal};
use event::{Direction, Event};
use std::io;

fn say_direction(rt: &impl Print, direction: Direction) -> io::Result<()> {
    match direction {
        Direction::Head(head, finer) => print!(rt; " head {head} finer {finer}"),
        Direction::HeadOnly(head) => print!(rt; " head {head} alone"),
        Direction::Unknown => rt.print(" unknown"),
    }
}

// What was asked for, to the end of the line.
pub(crate) fn say(rt: &impl Print, answer: Result<Event, Refusal>) -> io::Result<()> {
    match answer {
        Ok(event) => {
            print!(rt;
                " energy {:02x} time {:02x} sector {}",
                event.energy, event.time, event.sector
            )?;
            say_direction(rt, event.direction)?;
        }
        Err(why) => samples::say_refused(rt, why)?,
    }
    rt.println("")
}

// A line for each number: kind, descriptor 1, and the event.
fn numbers(rt: &impl Print, kind: Kind, d1: u8, list: &[usize]) -> io::Result<()> {
    let b = samples::made(kind, d1, 0);
    for n in list {
        samples::say_kind(rt, kind)?;
        print!(rt; " descriptor1 {d1:02x} direct event {}", *n)?;
        say(rt, event::direct_event(&b[..block::length_of(kind)], *n))?;
    }
    Ok(())
}

// Bits 0, 2 and 3 hide the events, bit 1 does not; beyond the last it is 22 all the same.
fn tests(rt: &impl Print, list: &[u8]) -> io::Result<()> {
    for d1 in list {
        numbers(rt, Kind::Nm, *d1, &[19, 20])?;
        numbers(rt, Kind::Bm1, *d1, &[105, 106])?;
    }
    Ok(())
}

// D as the low four bits of an event's third byte, beside another number as its sector.
fn direction(rt: &impl Print, d: u8) -> io::Result<()> {
    let mut b = samples::made(Kind::Nm, 0, 0);
    b[0x00C] = (15 - d % 16) * 16 + d % 16;
    print!(rt; "D {d}")?;
    say(rt, event::direct_event(&b[..block::length_of(Kind::Nm)], 0))
}

fn directions(rt: &impl Print) -> io::Result<()> {
    for d in 0..16 {
        direction(rt, d)?;
    }
    Ok(())
}

pub(crate) fn run(rt: &impl Print) -> io::Result<()> {
    numbers(rt, Kind::Nm, 0x00, &[0, 19, 20, usize::MAX])?;
    numbers(rt, Kind::Bm1, 0x00, &[0, 105, 106, usize::MAX])?;
    tests(rt, &[0x01, 0x02, 0x04, 0x08])?;
    directions(rt)
}
