// A word with no block pending, and the bookkeeping of every refusal.
// Keeps 01 "Command words": which word is stray, which head is too long, and what a refusal leaves behind.
#![tactic(auto)]

ghost use Rattle.std.specs.Prelude.{◌≡◌};
ghost use Rattle.rig.specs.Words.{nothing_pending, refused_of, settled_of, head_of, fresh_of};

use judge::{Core, Refusal};
use rig::{Answer, Faults, Kind, Pending, Reply, Rig, Taken};

// No block waits: the one value to which a close and a drop return.
pub fn nothing_pending() -> Option<Pending>
    ensures { result ≡ nothing_pending }
{
    None
}

// The bookkeeping of every refusal. The count goes from 255 to 0.
#[tactic(auto, unfolding(rig::specs::Words::refused_of))]
pub fn refuse(rig: Rig, high: u8, number: u8) -> Rig
    ensures { result ≡ refused_of rig high number }
{
    let faults = Faults {
        error: number,
        last: high,
        count: rig.faults.count.wrapping_add(1),
    };
    Rig { faults, ..rig }
}

// A verdict carried out; high is what a refusal leaves as the last invalid code.
#[tactic(auto, unfolding(rig::specs::Words::settled_of))]
pub fn settle(rig: Rig, high: u8, verdict: Result<Core, Refusal>) -> Taken
    ensures { result ≡ settled_of rig high verdict }
{
    match verdict {
        Ok(core) => Taken {
            rig: Rig { core, ..rig },
            reply: Reply::Plain(Answer::Accepted),
        },
        Err(why) => Taken {
            rig: refuse(rig, high, judge::number(why)),
            reply: Reply::Plain(Answer::Refused(why)),
        },
    }
}

// A head with nothing pending: it waits, if its block may be so long.
#[tactic(auto, unfolding(rig::specs::Words::head_of))]
fn begin(rig: Rig, high: u8, n: u8) -> Taken
    ensures { result ≡ head_of rig high n }
{
    if 79 < n {
        return settle(rig, high, Err(Refusal::WrongCount));
    }
    let block = Pending {
        head: high,
        n,
        got: 0,
        first: 0,
        second: 0,
        check: 0,
    };
    Taken {
        rig: Rig {
            pending: Some(block),
            ..rig
        },
        reply: Reply::Plain(Answer::Waiting),
    }
}

// A word with nothing pending.
#[tactic(auto, unfolding(rig::specs::Words::fresh_of))]
pub fn fresh(rig: Rig, kind: Kind, high: u8, low: u8) -> Taken
    ensures { result ≡ fresh_of rig kind high low }
{
    match kind {
        Kind::Single => settle(rig, high, single_words::single(rig.core, high % 64, low)),
        Kind::Head => begin(rig, high, low),
        Kind::Data | Kind::End => settle(rig, high, Err(Refusal::StrayWord)),
    }
}
