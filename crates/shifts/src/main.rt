// The check followed: reads the data bytes of a block from standard input, and writes the eight shift steps of each, and then the check.
// Keeps 02 (iii): a student can follow the check. What it writes is `shift_lines`'s, and the check `crc`'s; it only reads and writes.
#![tactic(auto)]

ghost use Rattle.std.specs.Prelude.{◌≡◌, take, IfOk};
ghost use Rattle.crc.specs.Crc.{crc_from};

use std::io;
use streams::{PIECE, Step};

// Writes a text on standard output. Where that fails there is no last line.
fn tell(rt: &(impl Print + Eprint), text: &[u8]) -> io::Result<()> {
    streams::or_say(rt, "shifts: cannot write\n", rt.write_all(text))
}

// Writes the lines of each byte of a piece.
#[tactic(auto, using(crc::proofs::Walk::from_more, crc::proofs::Walk::from_end))]
fn follow(rt: &(impl Print + Eprint), before: u8, piece: &[u8]) -> io::Result<u8>
    ensures { IfOk result (λ check. check ≡ crc_from before piece.now) }
{
    let mut check = before;
    for byte in piece {
        tell(rt, &shift_lines::byte_lines(check, *byte))?;
        check = crc::next(check, *byte);
    }
    Ok(check)
}

// Each piece is followed, from the check so far.
#[derive(Clone, Copy)]
struct Following<'a, R> {
    rt: &'a R,
}

impl<'a, R: Print + Eprint> Step<u8> for Following<'a, R> {
    ghost comes_to = { λ before check piece n outcome after. IfOk outcome (λ next. next ≡ crc_from check (take n piece)) };

    fn step(&mut self, check: u8, piece: &[u8; PIECE], n: usize) -> io::Result<u8> {
        follow(self.rt, check, &piece[..n.min(PIECE)])
    }
}

fn main(rt: HostRuntime) -> io::Result<()> {
    let check = streams::fold(
        &rt,
        "shifts: cannot read\n",
        &mut rt.stdin(),
        0,
        Following { rt: &rt },
    )?;
    tell(&rt, &shift_lines::check_line(check))
}
