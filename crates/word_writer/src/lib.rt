// A command's words written into a buffer that the caller lends: the single word, or the whole block with its check.
// Keeps 02 (i): 25 a setting too wide, then 26 too few words of room; both leave the buffer untouched, and words behind those written stay.
// Keeps of (iv) the commands of each supply.
#![tactic(auto)]

ghost use Rattle.std.specs.Prelude.{◌≡◌, true, ◌&&◌, ltb, ◌<◌, length};
ghost use Rattle.wording.specs.Written.{fits, single, block, words_of, put_answer, put_into, wrote_of, written_of};
ghost use Rattle.word_writer.specs.Codes.{of_supply};

use judge::Which;
use wording::{Command, Refusal};

// Whether no setting is wider than the bits that 01 reads.
fn fit(c: Command) -> bool
    ensures { result ≡ fits c }
{
    match c {
        Command::Relay(a, b) | Command::Iel(a, b) => a < 2 && b < 2,
        Command::HeadMask(mask) => mask < 8,
        Command::Target(_, n) | Command::Limit(_, n) => n < 16,
        Command::Mode(_) | Command::Stepping(_, _) => true,
        Command::Multiplexers(_, bit) => bit < 2,
        Command::DirectionWindow(a, b) | Command::EnergyWindow(a, b) => a < 32 && b < 32,
    }
}

// Of three numbers, that of a supply.
fn of_supply(which: Which, stop: u8, start: u8, deflection: u8) -> u8
    ensures { result ≡ of_supply which stop start deflection }
{
    match which {
        Which::Stop => stop,
        Which::Start => start,
        Which::Deflection => deflection,
    }
}

// Words put at the front of a buffer that has room for them.
fn put(words: &[u16], out: &mut [u16]) -> Result<usize, Refusal>
    ensures { (result ≡ put_answer words.now (length out.old)) × (out.new ≡ put_into words.now out.old) }
{
    let n = words.len();
    if out.len() < n {
        return Err(Refusal::NoRoom);
    }
    out[..n].copy_from_slice(words);
    Ok(n)
}

fn put_single(code: u8, low: u8, out: &mut [u16]) -> Result<usize, Refusal>
    ensures { (result ≡ put_answer (single code low) (length out.old)) × (out.new ≡ put_into (single code low) out.old) }
{
    put(&[base::word_of(code, low)], out)
}

fn put_block(code: u8, first: u8, second: u8, out: &mut [u16]) -> Result<usize, Refusal>
    requires { code < 64 }
    ensures { (result ≡ put_answer (block code first second) (length out.old))
        × (out.new ≡ put_into (block code first second) out.old) }
{
    put(&wording::block(code, first, second), out)
}

// The words of a command that fits.
fn put_command(c: Command, out: &mut [u16]) -> Result<usize, Refusal>
    requires { fits c ≡ true }
    ensures { (result ≡ put_answer (words_of c) (length out.old)) × (out.new ≡ put_into (words_of c) out.old) }
{
    match c {
        // Bit 1 on, bit 5 off.
        Command::Relay(on, off) => put_single(0x08, on * 0x02 + off * 0x20, out),
        // Bit 0 clock, bit 1 enable.
        Command::Iel(clock, enable) => put_single(0x0C, clock * 0x01 + enable * 0x02, out),
        Command::HeadMask(mask) => put_single(0x26, mask, out),
        Command::Target(x, target) => put_single(of_supply(x, 0x28, 0x20, 0x23), target, out),
        Command::Limit(x, limit) => put_single(of_supply(x, 0x29, 0x21, 0x24), limit, out),
        Command::Mode(low) => put_single(0x2B, low, out),
        Command::Stepping(x, low) => put_single(of_supply(x, 0x2D, 0x2C, 0x22), low, out),
        Command::Multiplexers(byte, bit) => put_block(0x20, byte, bit, out),
        Command::DirectionWindow(start, stop) => put_block(0x23, start, stop, out),
        Command::EnergyWindow(start, stop) => put_block(0x24, start, stop, out),
    }
}

// The words of a command at the front of a buffer; answers how many.
#[tactic(auto, unfolding(wording::specs::Written::wrote_of, wording::specs::Written::written_of))]
pub fn write(c: Command, out: &mut [u16]) -> Result<usize, Refusal>
    ensures { (result ≡ wrote_of c (length out.old)) × (out.new ≡ written_of c out.old) }
{
    if !fit(c) {
        return Err(Refusal::TooWide);
    }
    put_command(c, out)
}
