// A command's words: sent to a rig word by word, or read back and written again.
// Keeps 02 (i): what is written reaches the judgement of its settings, is read as it was, and is written again alike.
use crate::outcome::Outcome;
use menu_rows::Entry;
use rig::Rig;

// Words sent one by one: what the last of them gets. A block waits until then, and no longer.
pub(crate) fn sent(rig: Rig, list: &[u16]) -> Outcome {
    let Some((end, front)) = list.split_last() else {
        return Outcome::Other;
    };
    let mut r = rig;
    for word in front {
        r = words::take(r, *word).rig;
        if r.pending.is_none() {
            return Outcome::Other;
        }
    }
    let taken = words::take(r, *end);
    if taken.rig.pending.is_some() {
        return Outcome::Other;
    }
    match numbers::numbers_of(taken.reply).first {
        None => Outcome::Accepted,
        Some(number) => Outcome::Refused(number),
    }
}

// Relay on; of each supply stepping on, and a limit of its own: stop 10, start 7, deflection 3.
pub(crate) fn ready_rig() -> Rig {
    [0x0802, 0x2D01, 0x290A, 0x2C01, 0x2107, 0x2201, 0x2403]
        .into_iter()
        .fold(rig::start(), |r, word| words::take(r, word).rig)
}

// The first words of a buffer, or all where there are fewer.
pub(crate) fn front(words: &[u16], n: usize) -> &[u16] {
    words.get(..n).unwrap_or(words)
}

// Whether words are read as an entry of the menu, and written again alike.
fn is_back(e: Entry, list: &[u16]) -> bool {
    let Ok(c) = word_reader::read(list) else {
        return false;
    };
    let mut buf = [0u16; 4];
    let Ok(n) = word_writer::write(c, &mut buf) else {
        return false;
    };
    menu_rows::entry_of(c) == e && front(&buf, n) == list
}

// What the reader makes of words.
pub(crate) fn read_back(e: Entry, list: &[u16]) -> Outcome {
    if is_back(e, list) {
        Outcome::Alike
    } else {
        Outcome::Other
    }
}
