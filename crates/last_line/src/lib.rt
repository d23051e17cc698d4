// The last line of a listing, put on a page that the caller lends.
// Keeps 01 "Bench cases": the lister's last line.
#![tactic(auto)]

ghost use Rattle.std.specs.Prelude.{◌≡◌, ◌<◌};
ghost use Rattle.text.specs.Page.{Gets, RoomFor, as_fits};
ghost use Rattle.last_line.specs.LastLine as line;
ghost use Rattle.last_line.specs.LastLine.{codes_of, last_line};

use rig::Faults;
use text::Page;

// How long the line gets at most.
pub const LAST: usize = 28;

// A byte among wider numbers.
pub fn wide(x: u8) -> u32
    ensures { (result ≡ x) × (result < 256) }
{
    u32::from(x)
}

// The end of the last line.
fn codes_of(last: u8, error: u8) -> [u8; 17]
    ensures { result ≡ codes_of last error }
{
    let mut codes = *b" last 00 code 00\n";
    [codes[6], codes[7]] = text::hex(last);
    [codes[14], codes[15]] = text::hex(error);
    codes
}

fn put_faults(faults: Faults, page: &mut Page)
    requires { RoomFor line.LAST page.old }
    ensures { Gets (last_line faults) page.old page.new }
{
    page.put(b"invalid ");
    numerals::put_decimal(wide(faults.count), page);
    let codes = codes_of(faults.last, faults.error);
    page.put(&codes);
}

// The last line. Where the page has no room for the longest, nothing is put.
#[tactic(auto, using(text::proofs::Puts::put_nil), unfolding(text::specs::Page::fitting))]
pub fn put_last_line(faults: Faults, page: &mut Page)
    ensures { Gets (as_fits line.LAST page.old (last_line faults)) page.old page.new }
{
    if base::has_room(page.at, LAST, page.bytes.len()) {
        put_faults(faults, page);
    }
}
