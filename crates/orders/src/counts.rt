// How often each outcome came.
// Keeps 02 (i) and (iv).
use crate::outcome::Outcome;
use std::io;

#[derive(Drop)]
pub(crate) struct Counts {
    accepted: u64,
    // By the number of the refusal.
    refused: [u64; 256],
    alike: u64,
    other: u64,
    too_wide: u64,
}

// So many times an outcome, where it came at all.
fn say_count(rt: &impl Print, n: u64, what: &str) -> io::Result<()> {
    if n != 0 {
        print!(rt; ", {n} {what}")?;
    }
    Ok(())
}

impl Counts {
    pub(crate) fn none() -> Counts {
        Counts {
            accepted: 0,
            refused: [0; 256],
            alike: 0,
            other: 0,
            too_wide: 0,
        }
    }

    pub(crate) fn add(&mut self, outcome: Outcome) {
        let n = match outcome {
            Outcome::Accepted => &mut self.accepted,
            Outcome::Refused(number) => &mut self.refused[usize::from(number)],
            Outcome::Alike => &mut self.alike,
            Outcome::Other => &mut self.other,
            Outcome::TooWide => &mut self.too_wide,
        };
        *n = n.wrapping_add(1);
    }

    pub(crate) fn say(&self, rt: &impl Print) -> io::Result<()> {
        say_count(rt, self.accepted, "accepted")?;
        for (number, n) in self.refused.iter().enumerate() {
            if *n != 0 {
                print!(rt; ", {n} refused {number:02X}h")?;
            }
        }
        say_count(rt, self.alike, "written, read back and written again alike")?;
        say_count(rt, self.other, "otherwise")?;
        say_count(rt, self.too_wide, "refused 25")
    }
}
