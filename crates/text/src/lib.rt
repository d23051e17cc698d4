// Text for a page that the caller lends: a byte as two hex digits, a word as four, and a text put at a place.
// Keeps 01 "Bench cases": the digits of the lister's text. Nothing is written behind the page.
#![tactic(auto)]

ghost use Rattle.std.specs.Prelude.{◌≡◌, ◌+◌, ◌≤◌, ◌<◌, length};
ghost use Rattle.text.specs.Digits.{digit, hex_byte, hex_word};
ghost use Rattle.text.specs.Page.{Gets, RoomFor, as_fits};

// std's `from_digit` gives small letters.
#[tactic(auto, unfolding(crate::specs::Digits::digit))]
fn digit_of(d: u8) -> u8
    requires { d < 16 }
    ensures { result ≡ digit d }
{
    if d < 10 { b'0' + d } else { b'A' + (d - 10) }
}

// A byte as two hex digits.
pub fn hex(b: u8) -> [u8; 2]
    ensures { result ≡ hex_byte b }
{
    [digit_of(b / 16), digit_of(b % 16)]
}

// A word as four hex digits.
pub fn hex_word(word: u16) -> [u8; 4]
    ensures { result ≡ hex_word word }
{
    let [high, low] = word.to_be_bytes();
    let [a, b] = hex(high);
    let [c, d] = hex(low);
    [a, b, c, d]
}

// A page that the caller lends, and the place on it where the next text goes.
#[derive(Drop)]
pub struct Page<'a> {
    pub bytes: &'a mut [u8],
    pub at: usize,
}

impl<'a> Page<'a> {
    // It is lent just the stretch that the text takes, so that the copy knows its length.
    fn put_in(&mut self, text: &[u8])
        requires { RoomFor (length text.now) self.old }
        ensures { Gets text.now self.old self.new }
    {
        let at = self.at;
        let next = at + text.len();
        self.bytes[at..next].copy_from_slice(text);
        self.at = next;
    }

    // A text at the place, which moves behind it. Where the page has no room for the text, nothing is put.
    #[tactic(auto, using(crate::proofs::Puts::put_nil), unfolding(crate::specs::Page::fitting))]
    pub fn put(&mut self, text: &[u8])
        ensures { Gets (as_fits (length text.now) self.old text.now) self.old self.new }
    {
        if base::has_room(self.at, text.len(), self.bytes.len()) {
            self.put_in(text);
        }
    }
}
