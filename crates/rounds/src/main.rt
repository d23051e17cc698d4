// A rig with every item set, one round of its frames, what the desk then shows of all items, and a power cut; held to the file `stdout`.
// Keeps 01 "The 40-byte frame": what is written is what is read, each item at its age.
#![tactic(auto)]

use bench::Bench;
use frame::Item;
use power::PanelSetting;
use std::io;

// The blocks, the singles, one refusal, and three spins towards the target.
fn commanded(rt: &impl Print, bench: Bench) -> io::Result<Bench> {
    let mux = steps::block(rt, bench, [0x6002, 0xA041, 0xA001, 0xE049])?;
    let direction = steps::block(rt, mux, [0x6302, 0xA303, 0xA313, 0xE346])?;
    let energy = steps::block(rt, direction, [0x6402, 0xA401, 0xA41E, 0xE44F])?;
    let singles = [
        0x0C03, 0x2605, 0x2B01, 0x0802, 0x2D01, 0x290A, 0x2807, 0x280B,
    ];
    let sent = steps::send_all(rt, energy, &singles)?;
    steps::spins(rt, sent, 3)
}

fn paneled(rt: &impl Print, bench: Bench) -> io::Result<Bench> {
    println!(rt; "bias 9Ah, ground 70h, free time 1234h, flaps 1 and 3")?;
    let settings = [
        PanelSetting::Bias(0x9A),
        PanelSetting::Ground(0x70),
        PanelSetting::FreeTime(0x1234),
        PanelSetting::Flap1(true),
        PanelSetting::Flap3(true),
    ];
    Ok(settings.into_iter().fold(bench, bench::set))
}

// A frame's line: frame 0 whole, of the others the bytes that the index governs.
fn say_frame(rt: &impl Print, f: &[u8; 40]) -> io::Result<()> {
    print!(rt; "frame {}", f[0])?;
    if f[0] == 0 {
        printing::bytes(rt, &f[1..])?;
    } else {
        print!(rt; " bytes 37 to 39")?;
        printing::bytes(rt, &f[37..])?;
    }
    printing::end(rt)
}

// Frames built and heard.
fn all_heard(rt: &impl Print, bench: Bench, times: u32) -> io::Result<Bench> {
    let mut b = bench;
    for _ in 0..times {
        let mut f = [0u8; 40];
        b = passing::arrives(b, &mut f, 0).bench;
        say_frame(rt, &f)?;
    }
    Ok(b)
}

// The rig with every item set, after one round of its frames.
fn one_round(rt: &impl Print) -> io::Result<Bench> {
    println!(rt; "a round of frames")?;
    let spun = steps::spins(rt, bench::fresh(), 66048)?;
    let ready = commanded(rt, spun)?;
    let set = paneled(rt, ready)?;
    all_heard(rt, set, 32)
}

// The two items that differ most after a power cut: one comes in every frame, the other stays until frame 21.
fn after_the_cut(rt: &impl Print, bench: Bench) -> io::Result<()> {
    for item in [Item::LastInvalidCode, Item::LastCheck] {
        showing::say(rt, bench.desk, item)?;
        printing::end(rt)?;
    }
    Ok(())
}

fn main(rt: HostRuntime) -> io::Result<()> {
    let round = one_round(&rt)?;
    showing::all(&rt, round.desk)?;
    println!(rt; "power cut")?;
    let heard = all_heard(&rt, bench::power_cut(round), 1)?;
    after_the_cut(&rt, heard)
}
