// The check over bytes from outside: the standard check value of this CRC, 01's two blocks, and sums by another program.
// Keeps 01 "Command words": width 8, polynomial 07h, start 0, no reflection, no final change.
use std::io;

fn one(rt: &impl Print, s: &[u8]) -> io::Result<()> {
    print!(rt; "check of")?;
    printing::bytes(rt, s)?;
    println!(rt; " is {:02X}h", crc::check_of(s))
}

pub(crate) fn run(rt: &impl Print) -> io::Result<()> {
    println!(rt; "the check")?;
    one(rt, b"123456789")?;
    one(rt, b"\x01\x00")?;
    one(rt, b"\x03\x13")?;
    one(rt, b"\x80")?;
    one(rt, b"\xFF\xFF")?;
    one(rt, b"\xDE\xAD\xBE\xEF")?;
    println!(rt; "check of no bytes is {:02X}h", crc::check_of(b""))?;
    println!(rt;
        "check of 79 bytes 5Ah is {:02X}h",
        crc::check_of(&[0x5A; 79])
    )
}
