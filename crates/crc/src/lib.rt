// The check of a block command, and the judgement of a received one.
// Keeps 01 "Command words": the CRC of width 8, polynomial 07h, start 0, no reflection, no final change; and 02 (iii): eight shift steps for each byte.
#![tactic(auto)]

ghost use Rattle.std.specs.Prelude.{◌≡◌};
ghost use Rattle.crc.specs.Crc.{shift, crc_byte, crc_of};
ghost use Rattle.crc.specs.Judged.{judge_of};

// One shift step: the eight bits go up by one place, and the polynomial 07h is put in if a 1 fell out at the top.
#[tactic(auto, unfolding(crate::specs::Crc::shift))]
pub fn shift_step(x: u8) -> u8
    ensures { result ≡ shift x }
{
    if x < 0x80 {
        return x * 2;
    }
    let up = (x - 0x80) * 2;
    up ^ 0x07
}

// The check after one byte more: the two put together, and eight shift steps. A loop, since the compiler knows it for a CRC and is quick with it.
#[tactic(auto, using(crate::proofs::Steps::one_more_lem, crate::proofs::Steps::eight), unfolding(crate::proofs::Steps::shifts))]
pub fn next(c: u8, b: u8) -> u8
    ensures { result ≡ crc_byte c b }
{
    let mut x = c ^ b;
    for _ in 0..8u8 {
        x = shift_step(x);
    }
    x
}

// The check over the bytes of a slice; over none it is 0.
#[tactic(auto, using(crate::proofs::Walk::from_more, crate::proofs::Walk::from_end), unfolding(crate::specs::Crc::crc_of))]
pub fn check_of(s: &[u8]) -> u8
    ensures { result ≡ crc_of s.now }
{
    let mut c = 0;
    for b in s {
        c = next(c, *b);
    }
    c
}

// How a received check compares with the computed one.
#[derive(Clone, Copy)]
pub enum Judged {
    Right,
    Wrong,
}

pub fn judge_of(computed: u8, received: u8) -> Judged
    ensures { result ≡ judge_of computed received }
{
    if received == computed {
        return Judged::Right;
    }
    Judged::Wrong
}
