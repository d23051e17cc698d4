// The check followed step by step, as text: the nine lines of a byte, and the last line.
// Keeps 02 (iii): what a student can be shown. The lines of a byte are of one length, so that the bits stand below each other.
#![tactic(auto)]

ghost use Rattle.std.specs.Prelude.{◌≡◌, ◌++◌, ◌+◌, ◌≤◌, length};
ghost use Rattle.text.specs.Page.{Gets, RoomFor};
ghost use Rattle.shift_lines.specs.Lines.{shown, start_text, step_text, step_lines, byte_lines, check_line};

use text::Page;

// The lines of a byte, 33 letters each.
pub const LINES: usize = 297;

// The end of a line: eight bits, the top one first, and the same in hex.
fn shown_of(x: u8) -> [u8; 13]
    ensures { result ≡ shown x }
{
    let [high, low] = text::hex(x);
    [
        b' ',
        b'0' + x / 0x80 % 2,
        b'0' + x / 0x40 % 2,
        b'0' + x / 0x20 % 2,
        b'0' + x / 0x10 % 2,
        b'0' + x / 0x08 % 2,
        b'0' + x / 0x04 % 2,
        b'0' + x / 0x02 % 2,
        b'0' + x / 0x01 % 2,
        b' ',
        high,
        low,
        b'\n',
    ]
}

// How the line of a byte begins.
fn start_text(check: u8, byte: u8) -> [u8; 20]
    ensures { result ≡ start_text check byte }
{
    let mut start = *b"check 00 xor byte 00";
    [start[6], start[7]] = text::hex(check);
    [start[18], start[19]] = text::hex(byte);
    start
}

// How the line of a step begins: a 1 that falls out has the polynomial put in.
#[tactic(auto, unfolding(crate::specs::Lines::step_text, text::specs::Digits::digit))]
fn step_text(k: u8, x: u8) -> [u8; 20]
    ensures { result ≡ step_text k x }
{
    let [_, digit] = text::hex(k);
    if x < 0x80 {
        let mut quiet = *b"step 0 out 0        ";
        quiet[5] = digit;
        return quiet;
    }
    let mut step = *b"step 0 out 1 xor 07 ";
    step[5] = digit;
    step
}

// A line: how it begins, and eight bits.
fn put_line(begin: &[u8; 20], x: u8, page: &mut Page)
    requires { RoomFor 33 page.old }
    ensures { Gets (begin.now ++ shown x) page.old page.new }
{
    page.put(begin);
    let bits = shown_of(x);
    page.put(&bits);
}

// The lines of eight steps.
fn put_steps(byte: u8, page: &mut Page)
    requires { RoomFor 264 page.old }
    ensures { Gets (step_lines 8 1 byte) page.old page.new }
{
    let mut x = byte;
    for k in 1..=8 {
        let begin = step_text(k, x);
        x = crc::shift_step(x);
        put_line(&begin, x, page);
    }
}

// The lines of a byte: it begins with the check so far, and takes eight steps.
pub fn byte_lines(check: u8, byte: u8) -> [u8; LINES]
    ensures { result ≡ byte_lines check byte }
{
    let mut lines = [0u8; LINES];
    let mut page = Page {
        bytes: &mut lines,
        at: 0,
    };
    let both = check ^ byte;
    let begin = start_text(check, byte);
    put_line(&begin, both, &mut page);
    put_steps(both, &mut page);
    lines
}

// The last line.
pub fn check_line(check: u8) -> [u8; 9]
    ensures { result ≡ check_line check }
{
    let [high, low] = text::hex(check);
    let mut line = *b"check 00\n";
    line[6] = high;
    line[7] = low;
    line
}
