// The bench: one rig and one desk, and a function for each thing that happens to the rig alone. Crates `slots` and `passing` have those that reach the desk.
// Keeps 01 whole: the demands are said of these functions' definitions. Rig and desk go in by value and come back.
#![tactic(auto)]

ghost use Rattle.std.specs.Prelude.{◌≡◌};
ghost use Rattle.bench.specs.Bench.{fresh_bench, worded_of, spun_bench, set_bench, cut_bench};

use desk::Desk;
use power::PanelSetting;
use rig::{Reply, Rig};

#[derive(Clone, Copy)]
pub struct Bench {
    pub rig: Rig,
    pub desk: Desk,
}

// After a word: the bench, and what the sender hears.
#[derive(Clone, Copy)]
pub struct Worded {
    pub bench: Bench,
    pub reply: Reply,
}

pub fn fresh() -> Bench
    ensures { result ≡ fresh_bench }
{
    Bench {
        rig: rig::start(),
        desk: desk::fresh(),
    }
}

pub fn word(bench: Bench, word: u16) -> Worded
    ensures { result ≡ worded_of bench word }
{
    let taken = words::take(bench.rig, word);
    Worded {
        bench: Bench {
            rig: taken.rig,
            ..bench
        },
        reply: taken.reply,
    }
}

pub fn spin(bench: Bench) -> Bench
    ensures { result ≡ spun_bench bench }
{
    Bench {
        rig: power::spin(bench.rig),
        ..bench
    }
}

pub fn set(bench: Bench, setting: PanelSetting) -> Bench
    ensures { result ≡ set_bench bench setting }
{
    Bench {
        rig: power::set(bench.rig, setting),
        ..bench
    }
}

// The desk hears nothing of a power cut.
pub fn power_cut(bench: Bench) -> Bench
    ensures { result ≡ cut_bench bench }
{
    Bench {
        rig: power::power_cut(bench.rig),
        ..bench
    }
}
