// The way of a word: what it does to the block that waits, if one does.
// Keeps 01 "Command words": which word is kept, which closes the block, which is swallowed with it, which is judged afresh.
#![tactic(auto)]

ghost use Rattle.std.specs.Prelude.{◌≡◌};
ghost use Rattle.rig.specs.Ways.{data_way, end_way, pending_way, way_of};

use rig::{Kind, Pending, Way};

// A data word with a block pending: kept if it is of the same code and there is room left.
fn data_way(p: Pending, high: u8) -> Way
    ensures { result ≡ data_way p high }
{
    let same = high % 64 == p.head % 64;
    let room = p.got < p.n;
    if same & room {
        return Way::Keep;
    }
    Way::Swallow
}

// An end word with a block pending: it closes a block of the same code after exactly n data words.
fn end_way(p: Pending, high: u8) -> Way
    ensures { result ≡ end_way p high }
{
    let same = high % 64 == p.head % 64;
    let full = p.got == p.n;
    if same & full {
        return Way::Close;
    }
    Way::Swallow
}

// A word with a block pending.
#[tactic(auto, unfolding(rig::specs::Ways::pending_way))]
fn pending_way(p: Pending, kind: Kind, high: u8) -> Way
    ensures { result ≡ pending_way p kind high }
{
    match kind {
        Kind::Data => data_way(p, high),
        Kind::End => end_way(p, high),
        Kind::Single => Way::Afresh,
        Kind::Head => Way::Afresh,
    }
}

// What a word does. With no block pending it is judged afresh.
#[tactic(auto, unfolding(rig::specs::Ways::way_of))]
pub fn way_of(pending: Option<Pending>, kind: Kind, high: u8) -> Way
    ensures { result ≡ way_of pending kind high }
{
    match pending {
        Some(p) => pending_way(p, kind, high),
        None => Way::Afresh,
    }
}
