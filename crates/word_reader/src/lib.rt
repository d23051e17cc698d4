// Words read back: one single, or one block of right length and check, to its command and settings.
// Keeps 02 (i), and (iv), the commands of each supply: 38 for words that are not one command of 01; bits that 01 does not name are not looked at.
#![tactic(auto)]

ghost use Rattle.std.specs.Prelude.{◌≡◌};
ghost use Rattle.wording.specs.Meaning.{single_meant, block_meant, read_of};

use judge::Which;
use wording::{Command, Refusal};

#[tactic(auto, unfolding(wording::specs::Meaning::single_meant))]
fn single_meant(code: u8, low: u8) -> Result<Command, Refusal>
    ensures { result ≡ single_meant code low }
{
    match code {
        // Bit 1 on, bit 5 off.
        0x08 => Ok(Command::Relay(low / 0x02 % 2, low / 0x20 % 2)),
        // Bit 0 clock, bit 1 enable.
        0x0C => Ok(Command::Iel(low % 2, low / 0x02 % 2)),
        0x20 => Ok(Command::Target(Which::Start, low % 16)),
        0x21 => Ok(Command::Limit(Which::Start, low % 16)),
        0x22 => Ok(Command::Stepping(Which::Deflection, low)),
        0x23 => Ok(Command::Target(Which::Deflection, low % 16)),
        0x24 => Ok(Command::Limit(Which::Deflection, low % 16)),
        0x26 => Ok(Command::HeadMask(low % 8)),
        0x28 => Ok(Command::Target(Which::Stop, low % 16)),
        0x29 => Ok(Command::Limit(Which::Stop, low % 16)),
        0x2B => Ok(Command::Mode(low)),
        0x2C => Ok(Command::Stepping(Which::Start, low)),
        0x2D => Ok(Command::Stepping(Which::Stop, low)),
        _ => Err(Refusal::NotOne),
    }
}

#[tactic(auto, unfolding(wording::specs::Meaning::block_meant))]
fn block_meant(code: u8, first: u8, second: u8) -> Result<Command, Refusal>
    ensures { result ≡ block_meant code first second }
{
    match code {
        0x20 => Ok(Command::Multiplexers(first, second % 2)),
        0x23 => Ok(Command::DirectionWindow(first % 32, second % 32)),
        0x24 => Ok(Command::EnergyWindow(first % 32, second % 32)),
        _ => Err(Refusal::NotOne),
    }
}

// Four words: a block of the head's code, if they are those of that code with the low bytes and the check over these as received.
#[tactic(auto, unfolding(wording::specs::Meaning::is_block))]
fn four(words: [u16; 4]) -> Result<Command, Refusal>
    ensures { result ≡ read_of words }
{
    let [head, a, b, _] = words;
    let [high, _] = head.to_be_bytes();
    let [_, first] = a.to_be_bytes();
    let [_, second] = b.to_be_bytes();
    if words == wording::block(high, first, second) {
        return block_meant(high % 64, first, second);
    }
    Err(Refusal::NotOne)
}

// What words mean.
pub fn read(words: &[u16]) -> Result<Command, Refusal>
    ensures { result ≡ read_of words.now }
{
    match *words {
        [word] => {
            let [code, low] = word.to_be_bytes();
            single_meant(code, low)
        }
        [head, a, b, end] => four([head, a, b, end]),
        _ => Err(Refusal::NotOne),
    }
}
