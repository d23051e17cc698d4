// What is refused: 25 a setting too wide, 26 too little room, 38 words that are not one command of 01. Then words that are read, though a rig may refuse them.
// Keeps 02 (i) and (iv), run by the compiled code; what is printed is held to the file `stdout`.
#![tactic(auto)]

use judge::Which;
use std::io;
use text::Page;
use wording::{Command, Refusal};

// Each word behind a blank.
fn say_words(rt: &impl Print, words: &[u16]) -> io::Result<()> {
    for word in words {
        print!(rt; " {word:04X}")?;
    }
    Ok(())
}

fn say_refused(rt: &impl Print, why: Refusal) -> io::Result<()> {
    print!(rt; " refused {}", wording::number(why))
}

// A command in plain words.
fn say_plain(rt: &impl Print, c: Command) -> io::Result<()> {
    let mut bytes = [0u8; plain_words::PLAIN];
    let mut page = Page {
        bytes: &mut bytes,
        at: 0,
    };
    plain_words::put_plain(c, &mut page);
    let n = page.at;
    printing::text(rt, &bytes[..n])
}

// A command written into the first words of a buffer, where there are so many.
fn write_first(rt: &impl Print, c: Command, out: &mut [u16], room: usize) -> io::Result<()> {
    let Some(front) = out.get_mut(..room) else {
        return Ok(());
    };
    match word_writer::write(c, front) {
        Ok(_) => print!(rt; " written"),
        Err(why) => say_refused(rt, why),
    }
}

// A command written into a blank buffer of four, and what the buffer then holds.
fn write(rt: &impl Print, c: Command, room: usize) -> io::Result<()> {
    let mut buf = [0xAAAAu16; 4];
    print!(rt; ", room for {room}:")?;
    write_first(rt, c, &mut buf, room)?;
    print!(rt; ", buffer")?;
    say_words(rt, &buf)?;
    rt.println("")
}

fn put(rt: &impl Print, c: Command, room: usize) -> io::Result<()> {
    say_plain(rt, c)?;
    write(rt, c, room)
}

// A setting one too wide: those of mode and stepping and the first of block 20h are a whole byte. The menu has no row for such relay bits.
fn all_wide(rt: &impl Print) -> io::Result<()> {
    print!(rt; "relay bits 2 0")?;
    write(rt, Command::Relay(2, 0), 4)?;
    print!(rt; "relay bits 0 2")?;
    write(rt, Command::Relay(0, 2), 4)?;
    let commands = [
        Command::Iel(2, 0),
        Command::Iel(0, 2),
        Command::HeadMask(8),
        Command::Target(Which::Stop, 16),
        Command::Limit(Which::Stop, 16),
        Command::Target(Which::Start, 16),
        Command::Limit(Which::Start, 16),
        Command::Target(Which::Deflection, 16),
        Command::Limit(Which::Deflection, 16),
        Command::Multiplexers(255, 2),
        Command::DirectionWindow(32, 0),
        Command::DirectionWindow(0, 32),
        Command::EnergyWindow(32, 0),
        Command::EnergyWindow(0, 32),
    ];
    for c in commands {
        put(rt, c, 4)?;
    }
    Ok(())
}

// A word too little, and just enough; 25 comes before 26.
fn all_narrow(rt: &impl Print) -> io::Result<()> {
    let commands = [
        (Command::Relay(1, 0), 1),
        (Command::Stepping(Which::Stop, 1), 1),
        (Command::Stepping(Which::Start, 1), 1),
        (Command::Stepping(Which::Deflection, 1), 1),
        (Command::Multiplexers(1, 0), 4),
        (Command::DirectionWindow(1, 0), 4),
        (Command::EnergyWindow(1, 0), 4),
    ];
    for (c, enough) in commands {
        put(rt, c, enough - 1)?;
        put(rt, c, enough)?;
    }
    put(rt, Command::HeadMask(8), 0)?;
    put(rt, Command::EnergyWindow(32, 0), 3)
}

// A command that was read, and its words again.
fn say_read(rt: &impl Print, c: Command) -> io::Result<()> {
    let mut buf = [0xAAAAu16; 4];
    rt.print(" ")?;
    say_plain(rt, c)?;
    print!(rt; ", again")?;
    match word_writer::write(c, &mut buf) {
        Ok(n) => say_words(rt, buf.get(..n).unwrap_or(&[])),
        Err(why) => say_refused(rt, why),
    }
}

fn read(rt: &impl Print, words: &[u16]) -> io::Result<()> {
    print!(rt; "read")?;
    say_words(rt, words)?;
    print!(rt; ":")?;
    match word_reader::read(words) {
        Ok(c) => say_read(rt, c)?,
        Err(why) => say_refused(rt, why)?,
    }
    rt.println("")
}

// No word, two singles, a word after the block and one too few, n not 2; a data word and an end word of another code, a wrong check; an unknown single, a lone
// head, and a block of an unknown code with its right check.
fn all_unread(rt: &impl Print) -> io::Result<()> {
    read(rt, &[])?;
    read(rt, &[0x0802, 0x2D01])?;
    read(rt, &[0x6402, 0xA401, 0xA400, 0xE415, 0x0802])?;
    read(rt, &[0x6402, 0xA401, 0xA400])?;
    read(rt, &[0x6401, 0xA401, 0xA400, 0xE415])?;
    read(rt, &[0x6402, 0xA301, 0xA400, 0xE415])?;
    read(rt, &[0x6402, 0xA401, 0xA300, 0xE415])?;
    read(rt, &[0x6402, 0xA401, 0xA400, 0xE315])?;
    read(rt, &[0x6402, 0xA401, 0xA400, 0xE407])?;
    read(rt, &[0x0102])?;
    read(rt, &[0x6402])?;
    read(rt, &[0x6202, 0xA201, 0xA200, 0xE215])
}

// Words that a rig may refuse and that are read; then bits that 01 does not name.
fn all_read(rt: &impl Print) -> io::Result<()> {
    read(rt, &[0x0822])?;
    read(rt, &[0x2B07])?;
    read(rt, &[0x6402, 0xA401, 0xA400, 0xE415])?;
    read(rt, &[0x29FA])?;
    read(rt, &[0x6402, 0xA4E1, 0xA4E0, 0xE4F8])
}

// The same of the start and the deflection supply. 20h, 23h and 24h are other commands as blocks, and 21h, 22h and 2Ch are none.
fn all_others(rt: &impl Print) -> io::Result<()> {
    read(rt, &[0x2C07])?;
    read(rt, &[0x2207])?;
    read(rt, &[0x20F5])?;
    read(rt, &[0x21FA])?;
    read(rt, &[0x23F5])?;
    read(rt, &[0x24FA])?;
    read(rt, &[0x6002, 0xA001, 0xA000, 0xE015])?;
    read(rt, &[0x6302, 0xA301, 0xA300, 0xE315])?;
    read(rt, &[0x6102, 0xA101, 0xA100, 0xE115])?;
    read(rt, &[0x6C02, 0xAC01, 0xAC00, 0xEC15])
}

fn main(rt: HostRuntime) -> io::Result<()> {
    all_wide(&rt)?;
    all_narrow(&rt)?;
    all_unread(&rt)?;
    all_read(&rt)?;
    all_others(&rt)
}
