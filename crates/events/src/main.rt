// Events and matrix items read from data blocks by the compiled code, a line each; what is printed is held to the file `stdout`.
// Shows 01 "Data blocks" (direct events, IFFT2) and the rows 22 to 24 of "What the numbers mean".
#![tactic(auto)]

mod direct; // direct.rt: direct events by number, and every direction
mod entries; // entries.rt: the IFFT block

use std::io;

fn main(rt: HostRuntime) -> io::Result<()> {
    direct::run(&rt)?;
    entries::run(&rt)
}
