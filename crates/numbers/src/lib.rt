// What a reply says in the paper's numbers, for one who has the reply at run time.
// Keeps 01 "Command words": the number of each refusal, and that one word can give two.
#![tactic(auto)]

ghost use Rattle.std.specs.Prelude.{◌≡◌, Some, slice_get};
ghost use Rattle.rig.specs.Words.{drop_number};
ghost use Rattle.rig.specs.Replies.{answer_refusals, refusals_of, numbers_in};

use rig::{Answer, DROPPED, Numbers, Reply};

// Of the answer alone: one at most.
fn answer_number(answer: Answer) -> Option<u8>
    ensures { result ≡ slice_get (answer_refusals answer) 0 }
{
    match answer {
        Answer::Accepted | Answer::Waiting => None,
        Answer::Refused(why) => Some(judge::number(why)),
    }
}

// The dropped block's 03h, and what the word judged afresh got.
fn dropped(second: Option<u8>) -> Numbers
    ensures { (result.first ≡ Some drop_number) × (result.second ≡ second) }
{
    Numbers {
        first: Some(DROPPED),
        second,
    }
}

// The numbers of the refusals that a reply gives, in their order.
pub fn numbers_of(reply: Reply) -> Numbers
    ensures { result ≡ numbers_in (refusals_of reply) }
{
    match reply {
        Reply::Plain(a) => Numbers {
            first: answer_number(a),
            second: None,
        },
        Reply::Swallowed => dropped(None),
        Reply::Dropped(a) => dropped(answer_number(a)),
    }
}
