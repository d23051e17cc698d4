// What is done to a bench step by step, each with its line: words sent, and spins.
// Keeps 01 "Command words": what the sender of a word hears.
#![tactic(auto)]

ghost use Rattle.std.specs.Prelude.{◌≡◌, IfOk};
ghost use Rattle.steps.specs.Steps.{sent_one, sent_all, spun_times};

use bench::Bench;
use std::io;

// A word sent, with its line.
pub fn send(rt: &impl Print, bench: Bench, word: u16) -> io::Result<Bench>
    ensures { IfOk result (λ b. b ≡ sent_one bench word) }
{
    let worded = bench::word(bench, word);
    let reply = worded.reply;
    telling::word(rt, word, reply)?;
    Ok(worded.bench)
}

// Words sent in their order.
#[tactic(auto, using(crate::proofs::Runs::sent_next, crate::proofs::Runs::sent_end))]
pub fn send_all(rt: &impl Print, bench: Bench, words: &[u16]) -> io::Result<Bench>
    ensures { IfOk result (λ b. b ≡ sent_all bench words.now) }
{
    let mut b = bench;
    for word in words {
        b = send(rt, b, *word)?;
    }
    Ok(b)
}

// The four words of a block that sets two bytes.
pub fn block(rt: &impl Print, bench: Bench, words: [u16; 4]) -> io::Result<Bench>
    ensures { IfOk result (λ b. b ≡ sent_all bench words) }
{
    send_all(rt, bench, &words)
}

// So many spins.
#[tactic(auto, using(crate::proofs::Runs::spun_next, crate::proofs::Runs::spun_end))]
pub fn spins(rt: &impl Print, bench: Bench, times: u32) -> io::Result<Bench>
    ensures { IfOk result (λ b. b ≡ spun_times bench times) }
{
    telling::spins(rt, times)?;
    let mut b = bench;
    for _ in 0..times {
        b = bench::spin(b);
    }
    Ok(b)
}
