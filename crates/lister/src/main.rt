// The lister: reads words from standard input, high byte first, and writes each with what the rig answers.
// Keeps 01 "Bench cases": the lister. What it writes is `listing`'s; it only reads and writes. Where that fails there is no last line.
#![tactic(auto)]

ghost use Rattle.std.specs.Prelude.{◌≡◌, take, IfOk};
ghost use Rattle.listing.specs.Listing.{fed};

use listing::Lister;
use std::io;
use streams::{PIECE, Step};

// Writes a text on standard output.
fn tell(rt: &(impl Print + Eprint), text: &[u8]) -> io::Result<()> {
    streams::or_say(rt, "lister: cannot write\n", rt.write_all(text))
}

// A piece listed on the page, and its text written.
fn hear(
    rt: &(impl Print + Eprint),
    lister: Lister,
    piece: &[u8; PIECE],
    n: usize,
    page: &mut [u8; listing::PAGE],
) -> io::Result<Lister>
    ensures { IfOk result (λ next. next ≡ fed lister (take n piece.now)) }
{
    let listed = pieces::list(lister, piece, n, page);
    tell(rt, &page[..listed.len])?;
    Ok(listed.lister)
}

// Each piece is heard, from the lister so far.
#[derive(Drop)]
struct Listing<'a, R> {
    rt: &'a R,
    page: &'a mut [u8; listing::PAGE],
}

impl<'a, R: Print + Eprint> Step<Lister> for Listing<'a, R> {
    ghost comes_to = { λ before lister piece n outcome after. IfOk outcome (λ next. next ≡ fed lister (take n piece)) };

    fn step(&mut self, lister: Lister, piece: &[u8; PIECE], n: usize) -> io::Result<Lister> {
        hear(self.rt, lister, piece, n, self.page)
    }
}

fn main(rt: HostRuntime) -> io::Result<()> {
    let mut page = [0u8; listing::PAGE];
    let opened = listing::open(&mut page);
    tell(&rt, &page[..opened.len])?;
    let ended = streams::fold(
        &rt,
        "lister: cannot read\n",
        &mut rt.stdin(),
        opened.lister,
        Listing {
            rt: &rt,
            page: &mut page,
        },
    )?;
    let last = listing::finish(ended, &mut page);
    tell(&rt, &page[..last])
}
