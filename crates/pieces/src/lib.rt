// A piece of the stream listed: bytes in, the page of their lines out. It reads and writes nothing itself.
// Keeps 01 "Bench cases": the lister; words are read high byte first.
#![tactic(auto)]

ghost use Rattle.std.specs.Prelude.{◌≡◌, ◌+◌, ◌*◌, ◌≤◌, length, take, None, min};
ghost use Rattle.text.specs.Page.{Gets, RoomFor};
ghost use Rattle.lines.specs.Bounds.{PAIR};
ghost use Rattle.lines.specs.Text.{lines_of};
ghost use Rattle.rig.specs.Words.{take_of};
ghost use Rattle.listing.specs.Listing.{lister, fed_byte, said_byte, fed, said, listed};
ghost use Rattle.listing.specs.Front.{at_front, Within};

use listing::{Listed, Lister, PAGE, PIECE};
use rig::Rig;
use text::Page;

// A word: the rig takes it, and its lines go to the page.
fn hear(rig: Rig, word: u16, page: &mut Page) -> Lister
    requires { RoomFor PAIR page.old }
    ensures { (result ≡ lister (take_of rig word).rig None)
        × Gets (lines_of word (take_of rig word).reply) page.old page.new
        × (page.new.at ≤ page.old.at + PAIR) }
{
    let taken = words::take(rig, word);
    lines::put_lines(word, taken.reply, page);
    Lister {
        rig: taken.rig,
        lone: None,
    }
}

// One byte: it waits for its low byte, or completes a word, whose lines go to the page.
fn feed(lister: Lister, byte: u8, page: &mut Page) -> Lister
    requires { RoomFor PAIR page.old }
    ensures { (result ≡ fed_byte lister byte)
        × Gets (said_byte lister byte) page.old page.new
        × (page.new.at ≤ page.old.at + PAIR) }
{
    match lister.lone {
        None => Lister {
            rig: lister.rig,
            lone: Some(byte),
        },
        Some(high) => hear(lister.rig, base::word_of(high, byte), page),
    }
}

// Bytes in order.
fn run(lister: Lister, bytes: &[u8], page: &mut Page) -> Lister
    requires { RoomFor (PAIR * length bytes.now) page.old }
    ensures { (result ≡ fed lister bytes.now) × Gets (said lister bytes.now) page.old page.new }
{
    let mut state = lister;
    for byte in bytes {
        state = feed(state, *byte, page);
    }
    state
}

// The lesser of two numbers. std's `min`; the equation is the one that is promised.
pub fn least(a: usize, b: usize) -> usize
    ensures { result ≡ min a b }
{
    a.min(b)
}

// A piece of the stream, of which n bytes came: their text at the front of the page.
// No slice: a read leaves stale bytes behind those n, and that they are not listed is promised here (must-fail `lists_stale_bytes`).
pub fn list(lister: Lister, piece: &[u8; PIECE], n: usize, page: &mut [u8; PAGE]) -> Listed
    ensures { (result ≡ listed (fed lister (take n piece.now)) (said lister (take n piece.now)))
        × (page.new ≡ at_front (said lister (take n piece.now)) page.old)
        × Within result.len page.new }
{
    let mut front = Page { bytes: page, at: 0 };
    let after = run(lister, &piece[..least(n, PIECE)], &mut front);
    Listed {
        lister: after,
        len: front.at,
    }
}
