// Texts on standard output: bytes in hex, as 01 writes them, and numbers in decimal. Each function writes by the handle that it is given, and
// answers the error of a write that fails.
// Nothing of 01 is decided here, and nothing is said of what is printed: programs stand on it, and their `stdout` is held to a file.
#![tactic(auto)]

use std::fmt::Display;
use std::io;

pub fn text(rt: &impl Print, s: &[u8]) -> io::Result<()> {
    rt.write_all(s)
}

pub fn blank(rt: &impl Print) -> io::Result<()> {
    text(rt, b" ")
}

// The end of a line.
pub fn end(rt: &impl Print) -> io::Result<()> {
    text(rt, b"\n")
}

// A text with blanks behind it, up to the first.
pub fn name(rt: &impl Print, s: &[u8]) -> io::Result<()> {
    text(rt, s.split(|b| *b == b' ').next().unwrap_or(s))
}

// A number in decimal behind a text.
pub fn number_after<T: Display + Copy>(rt: &impl Print, s: &[u8], n: T) -> io::Result<()> {
    text(rt, s)?;
    print!(rt; "{n}")
}

// A byte as 01 writes it: 0Bh.
pub fn byte(rt: &impl Print, b: u8) -> io::Result<()> {
    print!(rt; "{b:02X}h")
}

// Eight hex digits: 00010000h.
pub fn long(rt: &impl Print, n: u32) -> io::Result<()> {
    print!(rt; "{n:08X}h")
}

// Each byte with a blank before it.
pub fn bytes(rt: &impl Print, s: &[u8]) -> io::Result<()> {
    for b in s {
        print!(rt; " {b:02X}")?;
    }
    Ok(())
}
