// What the desk shows of an item, as text: its name, and unknown, or a value with its age; and which items moved.
// Keeps 01 "The 40-byte frame": the items, in the order of their rows.
#![tactic(auto)]

use cell::Known;
use desk::Desk;
use frame::Item;
use item_names::ALL;
use std::io;

// A value in the digits that its item has: the two that frames spread have eight, the others two.
fn say_value(rt: &impl Print, item: Item, value: u32) -> io::Result<()> {
    printing::blank(rt)?;
    match item {
        Item::LongCounter | Item::FreeTime => printing::long(rt, value),
        _ => printing::byte(rt, (value % 256) as u8),
    }
}

// An item's name, and what the desk shows of it.
pub fn say(rt: &impl Print, desk: Desk, item: Item) -> io::Result<()> {
    printing::name(rt, &item_names::name_of(item))?;
    match desk::look(desk, item) {
        None => printing::text(rt, b" unknown"),
        Some(Known { value, age }) => {
            say_value(rt, item, value)?;
            printing::number_after(rt, b" age ", age.0)
        }
    }
}

// All items, a line each.
pub fn all(rt: &impl Print, desk: Desk) -> io::Result<()> {
    for item in &ALL {
        say(rt, desk, *item)?;
        printing::end(rt)?;
    }
    Ok(())
}

// Whether both show one value, at whatever age.
fn is_same(a: Option<Known>, b: Option<Known>) -> bool {
    matches!((a, b), (Some(a), Some(b)) if a.value == b.value)
}

// The items that one desk shows at another value than the other, or not at all, each with a blank before it.
pub fn moved(rt: &impl Print, before: Desk, after: Desk) -> io::Result<()> {
    for item in &ALL {
        if !is_same(desk::look(before, *item), desk::look(after, *item)) {
            printing::blank(rt)?;
            say(rt, after, *item)?;
        }
    }
    Ok(())
}
