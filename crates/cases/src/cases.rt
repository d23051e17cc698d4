// 01's cases a to l, run by the compiled code.
// Keeps 01 "Bench cases", with 02 (ii)'s spin before the frame in a and c; crate `demands` proves them of the definitions.
ghost use Rattle.std.specs.Prelude.{◌<◌};

use bench::Bench;
use std::io;

// A fresh bench, and the block of a case.
fn block(rt: &impl Print, letter: char, words: [u16; 4]) -> io::Result<Bench> {
    println!(rt; "case {letter}")?;
    steps::block(rt, bench::fresh(), words)
}

// A fresh bench, and the one word of a case.
fn single(rt: &impl Print, letter: char, word: u16) -> io::Result<Bench> {
    println!(rt; "case {letter}")?;
    steps::send(rt, bench::fresh(), word)
}

// Two words, of which only the answers are shown.
fn two(rt: &impl Print, letter: char, first: u16, second: u16) -> io::Result<()> {
    let worded = single(rt, letter, first)?;
    steps::send(rt, worded, second)?;
    Ok(())
}

// A byte of the next frame.
fn show_frame_byte(rt: &impl Print, bench: Bench, k: usize) -> io::Result<()>
    requires { k < 40 }
{
    let mut f = [0u8; 40];
    slots::build(bench, &mut f, 0);
    println!(rt; "frame {} byte {k} is {:02X}h", f[0], f[k])
}

fn energy_window(rt: &impl Print) -> io::Result<()> {
    let ordered = block(rt, 'a', [0x6402, 0xA401, 0xA400, 0xE415])?;
    let a = steps::spins(rt, ordered, 1)?;
    show_frame_byte(rt, a, 10)
}

fn wrong_check(rt: &impl Print) -> io::Result<()> {
    let b = block(rt, 'b', [0x6402, 0xA401, 0xA400, 0xE407])?;
    println!(rt; "last check {:02X}h", b.rig.check)
}

fn direction_window(rt: &impl Print) -> io::Result<()> {
    let ordered = block(rt, 'c', [0x6302, 0xA303, 0xA313, 0xE346])?;
    let c = steps::spins(rt, ordered, 1)?;
    show_frame_byte(rt, c, 8)?;
    show_frame_byte(rt, c, 9)
}

fn limit(rt: &impl Print) -> io::Result<()> {
    let g = single(rt, 'g', 0x29FA)?;
    println!(rt; "limit {}", g.rig.core.stop.limit)
}

fn show_count(rt: &impl Print, bench: Bench) -> io::Result<()> {
    println!(rt; "invalid count {}", bench.rig.faults.count)
}

// 255 refusals, with no line, and one more.
fn count(rt: &impl Print) -> io::Result<()> {
    println!(rt; "case h")?;
    let full = (0..255).fold(bench::fresh(), |b, _| bench::word(b, 0x0800).bench);
    show_count(rt, full)?;
    show_count(rt, steps::send(rt, full, 0x0800)?)
}

// Volts as a count of 256ths, which the product with 256 leaves exact; the sign is that of the float, also at 0.
// The sign by 1/x, since std's `is_sign_negative` asks for a proof that x is no NaN; the count by std's saturating function, since `as` asks for one.
fn volts(rt: &impl Print, name: &str, raw: u8, x: f64) -> io::Result<()> {
    let sign = if 1.0 / x > 0.0 { '+' } else { '-' };
    let size = std::num::saturating_f64_to_u64((x * 256.0).abs());
    println!(rt; "{name} {raw:02X}h is {sign}{size}/256 V")
}

// The sheet of two equal readings.
fn reading(rt: &impl Print, raw: u8) -> io::Result<()> {
    let sheet = volts::sheet_of(raw, raw);
    volts(rt, "bias", raw, sheet.bias)?;
    volts(rt, "ground", raw, sheet.ground)
}

fn readings(rt: &impl Print) -> io::Result<()> {
    println!(rt; "case i")?;
    reading(rt, 0x00)?;
    reading(rt, 0x80)?;
    reading(rt, 0xFF)
}

fn show_item(rt: &impl Print, b: &[u8], n: usize) -> io::Result<()> {
    print!(rt; "item {n} ")?;
    match ifft::ifft_item(b, n) {
        Ok(item) => {
            let state = if item.good { "good" } else { "bad" };
            println!(rt; "second word {:04X}h {state}", item.second)
        }
        Err(why) => println!(rt; "refused {}", block::number(why)),
    }
}

// An NM block whose IFFT block has two matrix items; the third is beyond the last.
fn items(rt: &impl Print) -> io::Result<()> {
    println!(rt; "case l")?;
    let mut b = [0u8; 512];
    b[..7].copy_from_slice(&[0x14, 0x6F, 0x2E, 0, 0x01, 6, 2]);
    b[0x20..0x28].copy_from_slice(&[0, 0, 0x80, 0x04, 0, 0, 0x80, 0]);
    for n in [0, 1, 2] {
        show_item(rt, &b, n)?;
    }
    Ok(())
}

pub(crate) fn run(rt: &impl Print) -> io::Result<()> {
    energy_window(rt)?;
    wrong_check(rt)?;
    direction_window(rt)?;
    single(rt, 'd', 0x0822)?;
    single(rt, 'e', 0x2805)?;
    two(rt, 'f', 0x0802, 0x2805)?;
    limit(rt)?;
    count(rt)?;
    readings(rt)?;
    two(rt, 'j', 0x6402, 0x0802)?;
    two(rt, 'k', 0x4450, 0x444F)?;
    items(rt)
}
