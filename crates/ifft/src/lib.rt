// The IFFT block: its events and its matrix items, read by number from a data block.
// Keeps 01 "Data blocks" (IFFT2) and the rows 22 and 24 of "What the numbers mean". What an entry is is said in crate `event`.
#![tactic(auto)]

ghost use Rattle.std.specs.Prelude.{◌≡◌, ◌+◌, ◌≤◌, length};
ghost use Rattle.event.specs.Ifft.{turn, wrong, word_at, item_at, event_of, item_of};
ghost use Rattle.event.specs.Steps.{ifft_at};

use block::{Kind, Layout, Refusal};
use event::{Event, MatrixItem};

// What sets the entries of an IFFT block apart: the first of the three spin counters that they come at, how many there can be, and the bytes of one.
#[derive(Clone, Copy)]
struct Entries {
    first: u8,
    most: u8,
    size: usize,
}

// Events come at spin counters 5, 7, 9 and matrix items at 6, 8, 10.
fn is_turn(spin: u8, first: u8) -> bool
    requires { first ≤ 6 }
    ensures { result ≡ turn first spin }
{
    [first, first + 2, first + 4].contains(&spin)
}

// 24: not NM, no IFFT, a memory dump, a count that the block can't hold, or another spin counter, which is asked last: it takes three comparisons.
#[tactic(auto, unfolding(event::specs::Ifft::wrong))]
fn is_wrong(layout: Layout, spin: u8, count: u8, entries: Entries) -> bool
    requires { entries.first ≤ 6 }
    ensures { result ≡ wrong layout.kind layout.d1 spin count entries.first entries.most }
{
    let d1 = layout.d1;
    layout.kind != Kind::Nm
        || d1 % 2 != 1
        || d1 / 4 % 2 == 1
        || entries.most < count
        || !is_turn(spin, entries.first)
}

// Where the entry of a number begins in the IFFT block, which begins at 20h; or why it is refused.
#[tactic(auto, using(event::proofs::Laws::ifft_refused, event::proofs::Laws::ifft_wrong, event::proofs::Laws::ifft_beyond, event::proofs::Laws::ifft_found, event::proofs::Laws::counters_in))]
fn ifft_at(b: &[u8], n: usize, entries: Entries) -> Result<usize, Refusal>
    requires { (entries.first ≤ 6) × (entries.size ≤ 4) }
    ensures { result ≡ ifft_at b.now n entries.first entries.most entries.size }
{
    let layout = layout::layout_of(b)?;
    let count = b[6];
    if is_wrong(layout, b[5], count, entries) {
        return Err(Refusal::NotIfft);
    }
    if usize::from(count) <= n {
        return Err(Refusal::Beyond);
    }
    Ok(0x020 + entries.size * n)
}

// The event of a number in the IFFT block: a direct event.
#[tactic(auto, using(event::proofs::Laws::event_is))]
pub fn ifft_event(b: &[u8], n: usize) -> Result<Event, Refusal>
    ensures { result ≡ event_of b.now n }
{
    let events = Entries {
        first: 5,
        most: 85,
        size: 3,
    };
    event::event_in(b, ifft_at(b, n, events))
}

fn word_at(b: &[u8], at: usize) -> u16
    requires { at + 2 ≤ length b.now }
    ensures { result ≡ word_at b.now at }
{
    base::word_of(b[at], b[at + 1])
}

fn item_at(b: &[u8], at: usize) -> MatrixItem
    requires { at + 4 ≤ length b.now }
    ensures { result ≡ item_at b.now at }
{
    let first = word_at(b, at);
    let second = word_at(b, at + 2);
    MatrixItem {
        first,
        second,
        good: second.count_ones() % 2 == 0,
    }
}

// The matrix item of a number in the IFFT block.
#[tactic(auto, using(event::proofs::Laws::item_refused, event::proofs::Laws::item_found, event::proofs::Laws::item_ends))]
pub fn ifft_item(b: &[u8], n: usize) -> Result<MatrixItem, Refusal>
    ensures { result ≡ item_of b.now n }
{
    let items = Entries {
        first: 6,
        most: 64,
        size: 4,
    };
    let at = ifft_at(b, n, items)?;
    Ok(item_at(b, at))
}
