// Data blocks taken apart by the compiled code, a line for each asking; what is printed is held to the file `stdout`.
// Shows 01 "Data blocks" and the rows 19 to 24 of "What the numbers mean".
#![tactic(auto)]

mod table; // table.rt: where each part stands
mod hidden; // hidden.rt: what each descriptor bit hides
mod refused; // refused.rt: blocks that are none, and the order of the refusals

use std::io;

fn main(rt: HostRuntime) -> io::Result<()> {
    table::run(&rt)?;
    hidden::run(&rt)?;
    refused::run(&rt)
}
