// What a desk shows of bias and ground, as the sheet in volts.
// Keeps 01 "Volts": the sheet holds both readings. Until both are known there is none.
#![tactic(auto)]

ghost use Rattle.std.specs.Prelude.{◌≡◌, ◌%◌};
ghost use Rattle.frame.specs.declared.Item.TheVariants.{Bias, Ground};
ghost use Rattle.frame.specs.Items.{row_of};
ghost use Rattle.desk.specs.Desk.{shows};
ghost use Rattle.sheet.specs.Sheeted.{InVolts};

use cell::Known;
use desk::Desk;
use frame::Item;
use volts::Sheet;

// The byte that is shown.
fn byte_of(known: Known) -> u8
    ensures { result ≡ known.value % 256 }
{
    (known.value % 256) as u8
}

// The two readings, shown as they are, in volts.
fn in_volts(bias: Option<Known>, ground: Option<Known>) -> Option<Sheet>
    ensures { InVolts bias ground result }
{
    Some(volts::sheet_of(byte_of(bias?), byte_of(ground?)))
}

pub fn sheet_at(desk: Desk) -> Option<Sheet>
    ensures { InVolts (shows desk (row_of Bias)) (shows desk (row_of Ground)) result }
{
    in_volts(desk::look(desk, Item::Bias), desk::look(desk, Item::Ground))
}
