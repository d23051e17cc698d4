// The lines of a word that was sent, with what its sender hears, and of spins, for the programs that print them.
// Keeps 01 "Command words": what the sender of a word hears.
#![tactic(auto)]

use rig::{Answer, Reply};
use std::io;

fn answer_told(rt: &impl Print, answer: Answer) -> io::Result<()> {
    match answer {
        Answer::Accepted => rt.print(" accepted"),
        Answer::Waiting => rt.print(" waiting"),
        Answer::Refused(why) => {
            let number = judge::number(why);
            print!(rt; " refused {number:02X}h")
        }
    }
}

fn reply_told(rt: &impl Print, reply: Reply) -> io::Result<()> {
    match reply {
        Reply::Plain(answer) => answer_told(rt, answer),
        Reply::Swallowed => rt.print(" dropped 03h"),
        Reply::Dropped(answer) => {
            rt.print(" dropped 03h, then")?;
            answer_told(rt, answer)
        }
    }
}

// A word, and what the rig answered.
pub fn word(rt: &impl Print, word: u16, reply: Reply) -> io::Result<()> {
    print!(rt; "word {word:04X}")?;
    reply_told(rt, reply)?;
    rt.println("")
}

// So many spins.
pub fn spins(rt: &impl Print, times: u32) -> io::Result<()> {
    if times == 1 {
        rt.println("one spin")
    } else {
        println!(rt; "{times} spins")
    }
}
