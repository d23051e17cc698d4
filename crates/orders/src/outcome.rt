// What one command of the menu comes to: refused by the writer, or written and handed to a party, the reader or a rig.
// Keeps 02 (i) and (iv).
use crate::trying;
use menu_rows::Entry;
use wording::Refusal;

#[derive(Clone, Copy)]
pub(crate) enum Outcome {
    Accepted,
    // By a rig, with that number.
    Refused(u8),
    // Read back as it was, and written again alike.
    Alike,
    Other,
    // By the writer, 25.
    TooWide,
}

// A rig as it starts, and one with relay and stepping on and limits 10, 7 and 3.
#[derive(Clone, Copy)]
pub(crate) enum Party {
    Reader,
    FreshRig,
    ReadyRig,
}

fn of_words(e: Entry, list: &[u16], party: Party) -> Outcome {
    match party {
        Party::Reader => trying::read_back(e, list),
        Party::FreshRig => trying::sent(rig::start(), list),
        Party::ReadyRig => trying::sent(trying::ready_rig(), list),
    }
}

// Of what is not written a rig has nothing to answer.
pub(crate) fn of_entry(e: Entry, party: Party) -> Option<Outcome> {
    let mut buf = [0u16; 4];
    match (word_writer::write(menu_rows::command(e), &mut buf), party) {
        (Ok(n), _) => Some(of_words(e, trying::front(&buf, n), party)),
        (Err(Refusal::TooWide), Party::Reader) => Some(Outcome::TooWide),
        (Err(_), Party::Reader) => Some(Outcome::Other),
        (Err(_), _) => None,
    }
}
