// The menu: reads lines from standard input and writes the answer to each: the words of a command in hex, what words in hex mean, or a refusal's number.
// Keeps 02 (i): the class picks from a menu. What it writes is `answering`'s, and what a line is `cutting`'s; it only reads and writes.
#![tactic(auto)]

ghost use Rattle.std.specs.Prelude.{⊤};

use cutting::{Held, ROOM, Said};
use std::io;
use streams::{PIECE, Step};

// Writes the answer to a line.
fn tell(rt: &impl Print, said: Said, line: &[u8; ROOM]) -> io::Result<()> {
    let mut page = [0u8; answering::PAGE];
    let n = answering::put_reply(said, line, &mut page);
    rt.write_all(&page[..n])
}

// Answers the lines that a piece completes. No iterator: each call says itself where the next goes on.
fn feed(
    rt: &(impl Print + Eprint),
    held: Held,
    piece: &[u8],
    line: &mut [u8; ROOM],
) -> io::Result<Held> {
    let mut now = held;
    let mut at: usize = 0;
    while at < piece.len() {
        let step = cutting::next(now, piece, at, line);
        now = step.held;
        at = step.at;
        streams::or_say(rt, "menu: cannot write\n", tell(rt, step.said, line))?;
    }
    Ok(now)
}

// The lines of each piece are answered; what is held of a line is in the buffer. Nothing is promised of it: what a line is, `cutting` says.
#[derive(Drop)]
struct Answering<'a, R> {
    rt: &'a R,
    line: &'a mut [u8; ROOM],
}

impl<'a, R: Print + Eprint> Step<Held> for Answering<'a, R> {
    ghost comes_to = { λ before held piece n outcome after. ⊤ };

    fn step(&mut self, held: Held, piece: &[u8; PIECE], n: usize) -> io::Result<Held> {
        feed(self.rt, held, &piece[..n.min(PIECE)], self.line)
    }
}

// The last line may have no newline: it is answered at the end of the input.
fn main(rt: HostRuntime) -> io::Result<()> {
    let mut line = [0u8; ROOM];
    let held = streams::fold(
        &rt,
        "menu: cannot read\n",
        &mut rt.stdin(),
        cutting::begin(),
        Answering {
            rt: &rt,
            line: &mut line,
        },
    )?;
    tell(&rt, cutting::finish(held, &line), &line)
}
