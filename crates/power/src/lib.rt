// Power cuts, spins, and the instructor's settings.
// Keeps 01 "Spins and power", 02 (ii), the register, and 02 (iv), three supplies. The spin is carried out on each supply's record.
#![tactic(auto)]

ghost use Rattle.std.specs.Prelude.{◌≡◌};
ghost use Rattle.power.specs.Power.{spun_of, cut_of, panel_of, set_of};

use judge::Core;
use rig::{Panel, Rig};

// A setting by the instructor.
#[derive(Clone, Copy)]
pub enum PanelSetting {
    Bias(u8),
    Ground(u8),
    FreeTime(u16),
    Flap1(bool),
    Flap2(bool),
    Flap3(bool),
}

// A power cut: a pending block is forgotten unrefused, with all else.
pub fn power_cut(rig: Rig) -> Rig
    ensures { result ≡ cut_of rig }
{
    rig::start()
}

// A spin: on each supply's record; what was ordered goes into the sensor's register, whatever else holds; one more on the long EDB counter.
pub fn spin(rig: Rig) -> Rig
    ensures { result ≡ spun_of rig }
{
    let core = rig.core;
    let supplies = [core.stop, core.start, core.deflection];
    let [stop, start, deflection] = supplies.map(stepping::spun);
    Rig {
        core: Core {
            stop,
            start,
            deflection,
            ..core
        },
        register: core.settings.sensor,
        edbs: base::spin_more(rig.edbs),
        ..rig
    }
}

fn turned(panel: Panel, setting: PanelSetting) -> Panel
    ensures { result ≡ panel_of panel setting }
{
    match setting {
        PanelSetting::Bias(bias) => Panel { bias, ..panel },
        PanelSetting::Ground(ground) => Panel { ground, ..panel },
        PanelSetting::FreeTime(free) => Panel { free, ..panel },
        PanelSetting::Flap1(flap1) => Panel { flap1, ..panel },
        PanelSetting::Flap2(flap2) => Panel { flap2, ..panel },
        PanelSetting::Flap3(flap3) => Panel { flap3, ..panel },
    }
}

// A setting by the instructor.
#[tactic(auto, unfolding(crate::specs::Power::set_of))]
pub fn set(rig: Rig, setting: PanelSetting) -> Rig
    ensures { result ≡ set_of rig setting }
{
    Rig {
        panel: turned(rig.panel, setting),
        ..rig
    }
}
