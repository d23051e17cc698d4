// Each switch and each small setting by itself on a fresh rig: after 35 whole slots its own items have moved, and no other; held to the file `stdout`.
// Keeps 01 "Command words" and "Spins and power": what each moves; "The 40-byte frame": each item has bits of its own. A block has its spin, 02 (ii);
// each supply has commands of its own, and the relay is common, 02 (iv).
#![tactic(auto)]

use bench::Bench;
use desk::Desk;
use power::PanelSetting;
use std::io;

// What the desk shows after 35 slots, which bring every item.
fn heard(bench: Bench) -> Desk {
    let told = (0..35).fold(bench, |b, _| {
        let mut f = [0u8; 40];
        passing::arrives(b, &mut f, 0).bench
    });
    told.desk
}

// What was set, and what the desk then shows that it does not show of a fresh rig.
fn say_moved(rt: &impl Print, name: &str, bench: Bench) -> io::Result<()> {
    print!(rt; "{name} moves")?;
    showing::moved(rt, heard(bench::fresh()), heard(bench))?;
    printing::end(rt)
}

fn single(rt: &impl Print, name: &str, word: u16) -> io::Result<()> {
    say_moved(rt, name, steps::send(rt, bench::fresh(), word)?)
}

fn block(rt: &impl Print, name: &str, words: [u16; 4]) -> io::Result<()> {
    let ordered = steps::block(rt, bench::fresh(), words)?;
    say_moved(rt, name, steps::spins(rt, ordered, 1)?)
}

fn set(rt: &impl Print, name: &str, setting: PanelSetting) -> io::Result<()> {
    say_moved(rt, name, bench::set(bench::fresh(), setting))
}

fn singles(rt: &impl Print) -> io::Result<()> {
    single(rt, "relay on", 0x0802)?;
    single(rt, "parallel", 0x2B01)?;
    single(rt, "stop stepping", 0x2D01)?;
    single(rt, "stop limit 10", 0x290A)?;
    single(rt, "start stepping", 0x2C01)?;
    single(rt, "start limit 9", 0x2109)?;
    single(rt, "deflection stepping", 0x2201)?;
    single(rt, "deflection limit 11", 0x240B)?;
    single(rt, "IEL clock", 0x0C01)?;
    single(rt, "IEL enable", 0x0C02)?;
    single(rt, "head mask 5", 0x2605)?;
    single(rt, "a refused word", 0x0800)
}

// With its spin a block also moves the last check and the counters; without one, the last check alone.
fn blocks(rt: &impl Print) -> io::Result<()> {
    block(rt, "multiplexer 1", [0x6002, 0xA001, 0xA000, 0xE015])?;
    block(rt, "multiplexer 2", [0x6002, 0xA008, 0xA000, 0xE0A8])?;
    block(rt, "multiplexer 3", [0x6002, 0xA040, 0xA000, 0xE05B])?;
    block(
        rt,
        "direction window 3 to 19",
        [0x6302, 0xA303, 0xA313, 0xE346],
    )?;
    let energy = [0x6402, 0xA405, 0xA409, 0xE47E];
    block(rt, "energy window 5 to 9", energy)?;
    let early = steps::block(rt, bench::fresh(), energy)?;
    say_moved(rt, "energy window 5 to 9 with no spin", early)
}

// The words that bring a supply up, and five spins; then the relay off, which brings level and target to 0.
fn up(rt: &impl Print, name: &str, words: &[u16]) -> io::Result<()> {
    let aimed = steps::send_all(rt, bench::fresh(), words)?;
    let risen = steps::spins(rt, aimed, 5)?;
    say_moved(rt, name, risen)?;
    say_moved(rt, "and then relay off", steps::send(rt, risen, 0x0820)?)
}

fn supplies(rt: &impl Print) -> io::Result<()> {
    up(rt, "stop at 3", &[0x0802, 0x2D01, 0x290A, 0x2803])?;
    up(rt, "start at 4", &[0x0802, 0x2C01, 0x2109, 0x2004])?;
    up(rt, "deflection at 5", &[0x0802, 0x2201, 0x240B, 0x2305])?;
    let all = [
        0x0802, 0x2D01, 0x2C01, 0x2201, 0x290A, 0x2109, 0x240B, 0x2803, 0x2004, 0x2305,
    ];
    up(rt, "all three", &all)
}

fn settings(rt: &impl Print) -> io::Result<()> {
    set(rt, "flap 1", PanelSetting::Flap1(true))?;
    set(rt, "flap 2", PanelSetting::Flap2(true))?;
    set(rt, "flap 3", PanelSetting::Flap3(true))?;
    set(rt, "bias 9Ah", PanelSetting::Bias(0x9A))?;
    set(rt, "ground 70h", PanelSetting::Ground(0x70))?;
    set(rt, "free time 1234h", PanelSetting::FreeTime(0x1234))
}

fn main(rt: HostRuntime) -> io::Result<()> {
    println!(rt; "each setting alone, seen after 35 whole slots; first a fresh rig")?;
    showing::all(&rt, heard(bench::fresh()))?;
    singles(&rt)?;
    supplies(&rt)?;
    blocks(&rt)?;
    settings(&rt)?;
    say_moved(&rt, "three spins", steps::spins(&rt, bench::fresh(), 3)?)
}
