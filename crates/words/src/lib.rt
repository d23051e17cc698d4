// One word taken: by its way, it is kept, closes the block, is swallowed, or is judged afresh.
// Keeps 01 "Command words": what it does to a pending block, and with which reply.
#![tactic(auto)]

ghost use Rattle.std.specs.Prelude.{◌≡◌, ◌<◌};
ghost use Rattle.rig.specs.Words.{kind_of, one_more, verdict_of, closed_of, drop_block, dropped_reply, take_of};
ghost use Rattle.rig.specs.Ways.{told_as};

use crc::Judged;
use judge::{Core, Refusal};
use rig::{Answer, DROPPED, Kind, Pending, Reply, Rig, Taken, Way};

#[tactic(auto, unfolding(rig::specs::Words::kind_of))]
fn kind_of(high: u8) -> Kind
    ensures { result ≡ kind_of high }
{
    match high / 64 {
        0 => Kind::Single,
        1 => Kind::Head,
        2 => Kind::Data,
        _ => Kind::End,
    }
}

// The block with one more data word's low byte, for which there is room.
fn store(p: Pending, v: u8) -> Pending
    requires { p.got < p.n }
    ensures { result ≡ one_more p v }
{
    let next = Pending {
        got: p.got + 1,
        check: crc::next(p.check, v),
        ..p
    };
    match p.got {
        0 => Pending { first: v, ..next },
        1 => Pending { second: v, ..next },
        _ => next,
    }
}

// The verdict on a block that an end word closes, whose check the judgement is about.
#[tactic(auto, unfolding(rig::specs::Words::verdict_of))]
fn verdict(core: Core, p: Pending, judged: Judged) -> Result<Core, Refusal>
    ensures { result ≡ verdict_of judged core p }
{
    match judged {
        Judged::Right => block_words::block(core, p.head % 64, p.n, p.first, p.second),
        Judged::Wrong => Err(Refusal::WrongCheck),
    }
}

// The end word after exactly n data words. The last check is set, right or wrong.
#[tactic(auto, unfolding(rig::specs::Words::closed_of))]
fn close(rig: Rig, p: Pending, low: u8) -> Taken
    ensures { result ≡ closed_of rig p low }
{
    let v = verdict(rig.core, p, crc::judge_of(p.check, low));
    let shut = Rig {
        pending: afresh::nothing_pending(),
        check: p.check,
        ..rig
    };
    afresh::settle(shut, p.head, v)
}

// The block dropped, and 03h booked under the head's byte.
fn dropped(rig: Rig, p: Pending) -> Rig
    ensures { result ≡ drop_block rig p }
{
    afresh::refuse(
        Rig {
            pending: afresh::nothing_pending(),
            ..rig
        },
        p.head,
        DROPPED,
    )
}

fn dropped_reply(reply: Reply) -> Reply
    ensures { result ≡ dropped_reply reply }
{
    match reply {
        Reply::Plain(a) | Reply::Dropped(a) => Reply::Dropped(a),
        Reply::Swallowed => Reply::Swallowed,
    }
}

// A reply, told after a drop or as it is.
fn told(dropped: bool, reply: Reply) -> Reply
    ensures { result ≡ told_as dropped reply }
{
    if dropped {
        return dropped_reply(reply);
    }
    reply
}

// One word. It is judged afresh in one place, whether a block was dropped before it or not.
#[tactic(auto, using(rig::proofs::Ways::by_way_lem, rig::proofs::Ways::room), unfolding(rig::specs::Words::take_of, rig::specs::Words::take_with, rig::specs::Ways::way_of))]
pub fn take(rig: Rig, word: u16) -> Taken
    ensures { result ≡ take_of rig word }
{
    let [high, low] = word.to_be_bytes();
    let kind = kind_of(high);
    let mut free = rig;
    if let Some(p) = rig.pending {
        match ways::way_of(Some(p), kind, high) {
            Way::Keep => {
                return Taken {
                    rig: Rig {
                        pending: Some(store(p, low)),
                        ..rig
                    },
                    reply: Reply::Plain(Answer::Waiting),
                };
            }
            Way::Close => {
                let closed = close(rig, p, low);
                return Taken {
                    rig: closed.rig,
                    reply: closed.reply,
                };
            }
            Way::Swallow => {
                return Taken {
                    rig: dropped(rig, p),
                    reply: Reply::Swallowed,
                };
            }
            Way::Afresh => free = dropped(rig, p),
        }
    }
    let judged = afresh::fresh(free, kind, high, low);
    Taken {
        rig: judged.rig,
        reply: told(rig.pending.is_some(), judged.reply),
    }
}
