// The sheet: both readings in volts, from their raw bytes.
// Keeps 01 "Volts": a whole number of 256ths, (128 - d) × 277 or × 10, cast without loss and divided by 256.
#![tactic(auto)]

ghost use Rattle.volts.specs.Volts.{Shows};

#[derive(Clone, Copy)]
pub struct Sheet {
    pub bias: f64,
    pub ground: f64,
}

// The product is of whole numbers, and 256 a power of two, so that nothing is rounded.
pub fn sheet_of(bias: u8, ground: u8) -> Sheet
    ensures { Shows bias ground result }
{
    let b = (128 - bias as i32) * 277;
    let g = (128 - ground as i32) * 10;
    Sheet {
        bias: b as f64 / 256.0,
        ground: g as f64 / 256.0,
    }
}
