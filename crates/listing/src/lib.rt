// A listing: what is held of it between two pieces of its stream, how it begins and how it ends. It reads and writes nothing itself.
// Keeps 01 "Bench cases": the lister.
#![tactic(auto)]

ghost use Rattle.std.specs.Prelude.{◌≡◌, length};
ghost use Rattle.text.specs.Page.{Gets, RoomFor};
ghost use Rattle.listing.specs.Listing.{first_line, start_lister, odd_of, end_of, listed};
ghost use Rattle.listing.specs.Front.{at_front, Within};

use rig::Rig;
use text::Page;

// The most bytes of a piece of the stream, and of the page that its text goes to: each byte may bring a pair of lines.
pub const PIECE: usize = 4096;

pub const PAGE: usize = PIECE * lines::PAIR;

#[derive(Clone, Copy)]
pub struct Lister {
    pub rig: Rig,
    // The high byte of a word whose low byte has not come.
    pub lone: Option<u8>,
}

// The lister after a piece, and how many bytes of the page its text takes.
#[derive(Clone, Copy)]
pub struct Listed {
    pub lister: Lister,
    pub len: usize,
}

// A listing begins: the rig at its start, and the first line at the front of the page.
pub fn open(page: &mut [u8; PAGE]) -> Listed
    ensures { (result ≡ listed start_lister first_line)
        × (page.new ≡ at_front first_line page.old)
        × Within result.len page.new }
{
    let mut front = Page { bytes: page, at: 0 };
    front.put(b"word answer\n");
    Listed {
        lister: Lister {
            rig: rig::start(),
            lone: None,
        },
        len: front.at,
    }
}

// A byte that waits for its low byte is told.
#[tactic(auto, using(text::proofs::Puts::gets_all, text::proofs::Puts::gets_none))]
fn put_odd(lone: Option<u8>, page: &mut Page)
    requires { RoomFor 9 page.old }
    ensures { Gets (odd_of lone) page.old page.new }
{
    if lone.is_some() {
        page.put(b"odd byte\n");
    }
}

// The stream has ended: a lone last byte is told, then the last line. A block that still waits prints nothing.
pub fn finish(lister: Lister, page: &mut [u8; PAGE]) -> usize
    ensures { (result ≡ length (end_of lister))
        × (page.new ≡ at_front (end_of lister) page.old)
        × Within result page.new }
{
    let mut front = Page { bytes: page, at: 0 };
    put_odd(lister.lone, &mut front);
    last_line::put_last_line(lister.rig.faults, &mut front);
    front.at
}
