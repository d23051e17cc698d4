// Every row of the menu with every setting that a byte holds: written or refused 25, read back and written again, sent to two rigs. A line for each row.
// Keeps 02 (i) and (iv), run by the compiled code; what is printed is held to the file `stdout`.
#![tactic(auto)]

mod counts; // counts.rt: how often each outcome came
mod outcome; // outcome.rt: what one command comes to
mod trying; // trying.rt: a command's words, sent or read back

use counts::Counts;
use menu_rows::Entry;
use outcome::Party;
use std::io;

// How many commands a row makes: a setting has 256 values.
fn tries(row: usize) -> u32 {
    match menu_rows::settings(row) {
        0 => 1,
        1 => 256,
        _ => 65536,
    }
}

// What one party makes of so many commands of a row.
fn tell(rt: &impl Print, row: usize, n: u32, party: Party) -> io::Result<()> {
    let mut counts = Counts::none();
    for k in 0..n {
        let [first, second, _, _] = k.to_le_bytes();
        if let Some(outcome) = outcome::of_entry(Entry { row, first, second }, party) {
            counts.add(outcome);
        }
    }
    counts.say(rt)
}

fn say_line(rt: &impl Print, row: usize) -> io::Result<()> {
    let n = tries(row);
    printing::text(rt, &menu_names::name_of(row))?;
    print!(rt; ": tried {n}")?;
    tell(rt, row, n, Party::Reader)?;
    print!(rt; "; by a fresh rig")?;
    tell(rt, row, n, Party::FreshRig)?;
    print!(rt; "; by a ready rig")?;
    tell(rt, row, n, Party::ReadyRig)?;
    printing::end(rt)
}

fn main(rt: HostRuntime) -> io::Result<()> {
    for row in 0..menu_names::ROWS {
        say_line(&rt, row)?;
    }
    Ok(())
}
