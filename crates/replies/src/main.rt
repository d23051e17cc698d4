// A longer stream than the lister's example, word by word: it reaches every answer that the rig can give.
// Keeps 01 "Bench cases": the lister's text; "Command words": each refusal, and each kind of word that drops a block.
#![tactic(auto)]

use listing::Lister;
use std::io;

const WORDS: [u16; 67] = [
    0x2805, // relay off
    0x0822, // relay: both bits
    0x0800, // relay: neither bit
    0x0802, // relay on
    0x2805, // stepping disabled
    0x2D02, // stepping: neither 0 nor 1
    0x2B81, // serial or parallel: the whole low byte counts
    0x2D01, // stepping on
    0x2801, // target over the limit
    0x290A, // limit 10
    0x2805, // target 5
    0x290F, // level and target differ: there is no spin here
    0x2800, // target 0
    0x29FF, // limit 15; the top four bits are ignored
    0x0C03, // IEL clock and enable
    0x2605, // head mask
    0x2B01, // parallel
    0x3000, // no such single
    0xA401, // data with nothing pending
    0xE415, // an end with nothing pending
    0x4450, // a head of 80 words
    0x444F, // a head of 79 waits, whatever its code
    0x6402, // a head drops it and waits
    0xA401, // data
    0xA400, // data
    0xE415, // case a: energy window
    0x6302, // head
    0xA303, // data
    0xA313, // data
    0xE346, // case c: direction window
    0x6002, // head
    0xA049, // data
    0xA001, // data
    0xE0E1, // multiplexer word
    0x6402, // head
    0xA401, // data
    0xA400, // data
    0xE407, // case b: a wrong check
    0x4500, // a head of no words
    0xC500, // no such block
    0x6403, // head
    0xA401, // data
    0xA402, // data
    0xA403, // data
    0xE448, // three words are wrong for this block
    0x6400, // a head of no words
    0xE400, // none is wrong for it too
    0x6402, // head
    0x0802, // case j: a single drops it and is accepted
    0x6402, // head
    0x3F00, // a single drops it and is refused
    0x6402, // head
    0x6402, // a head of the same code drops it and waits
    0x7F50, // a head drops it and is refused
    0x6402, // head
    0xA301, // data of another code is swallowed
    0x6402, // head
    0xA401, // data
    0xA400, // data
    0xA400, // data with no room left is swallowed
    0x6402, // head
    0xA401, // data
    0xE415, // an end too early is swallowed
    0x6402, // head
    0xE300, // an end of another code is swallowed
    0x0820, // relay off
    0x6402, // a block that waits at the end prints nothing more
];

// The first n bytes of a word, as a piece of the stream.
fn show(
    rt: &impl Print,
    lister: Lister,
    word: u16,
    n: usize,
    page: &mut [u8; listing::PAGE],
) -> io::Result<Lister> {
    let mut piece = [0u8; listing::PIECE];
    [piece[0], piece[1]] = word.to_be_bytes();
    let listed = pieces::list(lister, &piece, n, page);
    rt.write_all(&page[..listed.len])?;
    Ok(listed.lister)
}

fn show_all(
    rt: &impl Print,
    lister: Lister,
    words: &[u16],
    page: &mut [u8; listing::PAGE],
) -> io::Result<Lister> {
    let mut state = lister;
    for word in words {
        state = show(rt, state, *word, 2, page)?;
    }
    Ok(state)
}

fn main(rt: HostRuntime) -> io::Result<()> {
    let mut page = [0u8; listing::PAGE];
    let opened = listing::open(&mut page);
    rt.write_all(&page[..opened.len])?;
    let all = show_all(&rt, opened.lister, &WORDS, &mut page)?;
    let odd = show(&rt, all, 0x0800, 1, &mut page)?;
    let last = listing::finish(odd, &mut page);
    rt.write_all(&page[..last])
}
