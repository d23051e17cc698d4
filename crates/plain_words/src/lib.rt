// A command in plain words, put at the place of a page that the caller lends: its name, and its settings in decimal.
// Keeps 02 (i): hex words back to plain words.
#![tactic(auto)]

ghost use Rattle.std.specs.Prelude.{◌∷◌, ◌+◌, ◌≤◌};
ghost use Rattle.text.specs.Page.{Gets, RoomFor, as_fits};
ghost use Rattle.numerals.specs.Decimal.{decimal};
ghost use Rattle.splitting.specs.Words.{space, spoken};
ghost use Rattle.menu_names.specs.Names.{name_words};
ghost use Rattle.menu_rows.specs.Rows.{wanted};
ghost use Rattle.plain_words.specs.Plain.{settings_said, plain_of};

use menu_rows::Entry;
use text::Page;
use wording::Command;

// How long a command in plain words gets at most: its name 20, each setting 4 with the space before it.
pub const PLAIN: usize = 28;

// The name of a row: one word, or two with a space between.
fn put_name(row: usize, page: &mut Page)
    requires { RoomFor 20 page.old }
    ensures { Gets (spoken (name_words row)) page.old page.new × (page.new.at ≤ page.old.at + 20) }
{
    let name = menu_names::name_of(row);
    page.put(splitting::word(&name, 0));
    if menu_names::words_in(row) < 2 {
        return;
    }
    page.put(b" ");
    page.put(splitting::word(&name, 1));
}

fn put_setting(n: u8, page: &mut Page)
    requires { RoomFor 4 page.old }
    ensures { Gets (space ∷ decimal n) page.old page.new × (page.new.at ≤ page.old.at + 4) }
{
    page.put(b" ");
    numerals::put_decimal(u32::from(n), page);
}

// As many settings as the row takes.
fn put_settings(e: Entry, page: &mut Page)
    requires { RoomFor 8 page.old }
    ensures { Gets (settings_said (wanted e.row) e.first e.second) page.old page.new × (page.new.at ≤ page.old.at + 8) }
{
    let wanted = menu_rows::settings(e.row);
    if wanted == 0 {
        return;
    }
    put_setting(e.first, page);
    if wanted == 1 {
        return;
    }
    put_setting(e.second, page);
}

// A command in plain words. Where the page has no room for the longest, nothing is put.
pub fn put_plain(c: Command, page: &mut Page)
    ensures { Gets (as_fits 28 page.old (plain_of c)) page.old page.new × (page.new.at ≤ page.old.at + 28) }
{
    if !base::has_room(page.at, PLAIN, page.bytes.len()) {
        return;
    }
    let e = menu_rows::entry_of(c);
    put_name(e.row, page);
    put_settings(e, page);
}
