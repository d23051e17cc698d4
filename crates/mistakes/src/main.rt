// Four of the class's mistakes, as runs that show what the desk shows, slot by slot; what is printed is held to the file `stdout`.
// Keeps 01 "What students would slip past us" and the desk's paragraph of "The 40-byte frame"; 02 (ii), the register.
#![tactic(auto)]

ghost use Rattle.std.specs.Prelude.{◌≡◌, ◌<◌};
ghost use Rattle.slots.specs.Slots.{lost_bench};

use bench::Bench;
use frame::Item;
use power::PanelSetting;
use std::io;

// What a slot brings. Whatever it is, the rig has built its next frame.
#[derive(Clone, Copy)]
enum Came {
    Whole, // that frame
    Missed, // nothing
    Fill, // 40 bytes C0h
}

// A step of a run: a word is sent; so many spins; the instructor sets ground; so many slots, each with its line; so many with no line.
#[derive(Clone, Copy)]
enum Step {
    Send(u16),
    Spin(u32),
    Ground(u8),
    Told(Came, u32),
    Untold(Came, u32),
}

use Came::{Fill, Missed, Whole};
use Step::{Ground, Send, Spin, Told, Untold};

// A block closed at the start: its check is unknown until frame 21 brings it.
// Another block: the old check stays shown, and ages, until the next frame 21.
const CHECK_TOO_EARLY: [Step; 16] = [
    Send(0x6402),
    Send(0xA401),
    Send(0xA400),
    Send(0xE415),
    Told(Whole, 1),
    Untold(Whole, 19),
    Told(Whole, 3),
    Send(0x6302),
    Send(0xA303),
    Send(0xA313),
    Send(0xE346),
    Told(Whole, 1),
    Untold(Whole, 7),
    Told(Whole, 1),
    Untold(Whole, 20),
    Told(Whole, 2),
];

// Frames 0 and 1 of one round, a spin, and 32 misses; frames 2 and 3 of the next round, and frames 0 to 3 of the one after it.
const TWO_ROUNDS: [Step; 9] = [
    Spin(65535),
    Told(Whole, 2),
    Spin(1),
    Told(Missed, 1),
    Untold(Missed, 30),
    Told(Missed, 1),
    Told(Whole, 2),
    Untold(Whole, 28),
    Told(Whole, 4),
];

// Fill in the slot of frame 2. Ground comes in frames 0, 8, 16 and 24, the last invalid code in every frame.
const FILL_AS_FRAME_0: [Step; 7] = [
    Ground(0x70),
    Spin(5),
    Told(Whole, 2),
    Told(Fill, 1),
    Told(Whole, 1),
    Untold(Whole, 31),
    Told(Whole, 1),
];

// An energy window ordered: the next frame still has the old one, and the frame after a spin has it. Then two orders before one spin.
const WINDOW_TOO_EARLY: [Step; 18] = [
    Send(0x6402),
    Send(0xA401),
    Send(0xA400),
    Send(0xE415),
    Told(Whole, 2),
    Spin(1),
    Told(Whole, 1),
    Send(0x6402),
    Send(0xA401),
    Send(0xA41E),
    Send(0xE44F),
    Send(0x6402),
    Send(0xA405),
    Send(0xA409),
    Send(0xE47E),
    Told(Whole, 1),
    Spin(1),
    Told(Whole, 1),
];

// What the lines of a run tell: one byte of a frame, and some items.
#[derive(Clone, Copy)]
struct Shows<'a> {
    byte: usize,
    items: &'a [Item],
    ghost inside: { byte < 40 },
}

// A run on its way: the bench, and the number of its next slot, from 0.
#[derive(Clone, Copy)]
struct Run<'a> {
    bench: Bench,
    slot: u32,
    shows: Shows<'a>,
}

// A frame built and lost: in two calls where its slot has a line, and else in one. Both come to the same.
fn lost(bench: Bench, f: &mut [u8; 40], is_told: bool) -> Bench
    ensures { result ≡ (lost_bench bench f.old 0).bench }
{
    if is_told {
        slots::miss(slots::build(bench, f, 0).bench)
    } else {
        losing::lost(bench, f, 0).bench
    }
}

impl<'a> Run<'a> {
    fn on(self, bench: Bench) -> Run<'a> {
        Run { bench, ..self }
    }

    // A slot after which the bench is as given.
    fn passed(self, bench: Bench) -> Run<'a> {
        Run {
            bench,
            slot: self.slot.wrapping_add(1),
            ..self
        }
    }

    // The slot's number, what came, and what the desk of the bench then shows.
    fn say(self, rt: &impl Print, bench: Bench, came: Came, f: &[u8; 40]) -> io::Result<()> {
        print!(rt; "slot {}", self.slot)?;
        match came {
            Whole => {
                print!(rt;
                    " index {} byte {} {:02X}h",
                    f[0] % 32,
                    self.shows.byte,
                    f[self.shows.byte]
                )?;
            }
            Missed => printing::text(rt, b" missed")?,
            Fill => printing::text(rt, b" fill C0h")?,
        }
        for item in self.shows.items {
            printing::blank(rt)?;
            showing::say(rt, bench.desk, *item)?;
        }
        printing::end(rt)
    }

    // One slot.
    fn pass(self, rt: &impl Print, came: Came, is_told: bool) -> io::Result<Run<'a>> {
        let mut f = [0u8; 40];
        let bench = match came {
            Whole => slots::hand(slots::build(self.bench, &mut f, 0).bench, &f).bench,
            Missed => lost(self.bench, &mut f, is_told),
            Fill => slots::hand(slots::build(self.bench, &mut f, 0).bench, &[0xC0; 40]).bench,
        };
        if is_told {
            self.say(rt, bench, came, &f)?;
        }
        Ok(self.passed(bench))
    }

    fn pass_all(
        self,
        rt: &impl Print,
        came: Came,
        times: u32,
        is_told: bool,
    ) -> io::Result<Run<'a>> {
        let mut run = self;
        for _ in 0..times {
            run = run.pass(rt, came, is_told)?;
        }
        Ok(run)
    }

    fn ground(self, rt: &impl Print, value: u8) -> io::Result<Run<'a>> {
        print!(rt; "ground {value:02X}h, ")?;
        Ok(self.on(bench::set(self.bench, PanelSetting::Ground(value))))
    }

    fn step(self, rt: &impl Print, step: Step) -> io::Result<Run<'a>> {
        match step {
            Send(word) => Ok(self.on(steps::send(rt, self.bench, word)?)),
            Spin(times) => Ok(self.on(steps::spins(rt, self.bench, times)?)),
            Ground(value) => self.ground(rt, value),
            Told(came, times) => self.pass_all(rt, came, times, true),
            Untold(came, times) => self.pass_all(rt, came, times, false),
        }
    }
}

fn play(rt: &impl Print, name: &str, list: &[Step], shows: Shows) -> io::Result<()> {
    println!(rt; "{name}")?;
    let mut run = Run {
        bench: bench::fresh(),
        slot: 0,
        shows,
    };
    for next in list {
        run = run.step(rt, *next)?;
    }
    Ok(())
}

fn main(rt: HostRuntime) -> io::Result<()> {
    play(
        &rt,
        "mistake 1: reading the check byte before frame 21 brings it",
        &CHECK_TOO_EARLY,
        Shows {
            byte: 39,
            items: &[Item::LastCheck],
        },
    )?;
    play(
        &rt,
        "mistake 2: joining a counter from two rounds",
        &TWO_ROUNDS,
        Shows {
            byte: 39,
            items: &[Item::LongCounter],
        },
    )?;
    play(
        &rt,
        "mistake 3: C0h fill taken for frame 0",
        &FILL_AS_FRAME_0,
        Shows {
            byte: 39,
            items: &[Item::LastInvalidCode, Item::Ground, Item::LongCounter],
        },
    )?;
    play(
        &rt,
        "mistake 4: reading a window before the spin that takes it to the sensor",
        &WINDOW_TOO_EARLY,
        Shows {
            byte: 10,
            items: &[Item::EnergyStart, Item::EnergyStop],
        },
    )
}
