// 01's cases a to l and outside vectors for the check, run by the compiled code, a line each; what is printed is held to the file `stdout`.
// Keeps 01 "Bench cases".
#![tactic(auto)]

mod checks; // checks.rt: the check
mod cases; // cases.rt: 01's cases a to l

use std::io;

fn main(rt: HostRuntime) -> io::Result<()> {
    checks::run(&rt)?;
    cases::run(&rt)
}
