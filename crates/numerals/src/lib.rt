// Numbers in text: in decimal into a page that the caller lends, and out of a text, in decimal and in hex.
// For lines that are typed, and the answers to them. Nothing is written behind the page.
#![tactic(auto)]

ghost use Rattle.std.specs.Prelude.{◌≡◌, ◌%◌, ◌≤◌, length, drop};
ghost use Rattle.text.specs.Digits.{digit};
ghost use Rattle.text.specs.Page.{Gets, as_fits};
ghost use Rattle.numerals.specs.Decimal.{decimal, number_in, number_of};
ghost use Rattle.numerals.specs.Hex.{word_of};

use text::Page;

// Why a text spells no number.
#[derive(Clone, Copy, PartialEq, Eq)]
pub enum BadNumber {
    NotANumber,
    TooLarge,
}

// The digits of a number, from a place of ten bytes to their end. No slice: what is made here cannot be lent out, and nothing is allocated.
#[derive(Clone, Copy)]
struct Made {
    bytes: [u8; 10],
    from: usize,
}

// The last digit of a number.
#[tactic(auto, unfolding(text::specs::Digits::digit))]
fn figure(n: u32) -> u8
    ensures { result ≡ digit (n % 10) }
{
    b'0' + (n % 10) as u8
}

fn figures(n: u32) -> Made
    ensures { (result.from ≤ 9) × (length result.bytes ≡ 10) × (drop result.from result.bytes ≡ decimal n) }
{
    let mut bytes = [0u8; 10];
    bytes[9] = figure(n);
    let mut rest = n / 10;
    let mut from: usize = 9;
    while 0 < rest {
        from -= 1;
        bytes[from] = figure(rest);
        rest /= 10;
    }
    Made { bytes, from }
}

// A number in decimal, with no zeros in front, at the page's place. Where the page has no room for it, nothing is put.
pub fn put_decimal(n: u32, page: &mut Page)
    ensures { Gets (as_fits (length (decimal n)) page.old (decimal n)) page.old page.new }
{
    let made = figures(n);
    page.put(&made.bytes[made.from..]);
}

// One more than the largest number that is read. A number that reaches it stays so, however many digits follow.
const BOUND: u64 = 4294967296;

fn number_in(base: u32, text: &[u8]) -> Result<u32, BadNumber>
    requires { (2 ≤ base) × (base ≤ 16) }
    ensures { result ≡ number_in base text.now }
{
    if text.is_empty() {
        return Err(BadNumber::NotANumber);
    }
    let mut n: u64 = 0;
    for b in text {
        let Some(digit) = char::from(*b).to_digit(base) else {
            return Err(BadNumber::NotANumber);
        };
        n = (n * u64::from(base) + u64::from(digit)).min(BOUND);
    }
    u32::try_from(n).map_err(|_| BadNumber::TooLarge)
}

// The number that a text spells in decimal. Zeros in front are taken.
pub fn read_number(text: &[u8]) -> Result<u32, BadNumber>
    ensures { result ≡ number_of text.now }
{
    number_in(10, text)
}

// The word that four hex digits spell, in capitals or in small letters.
pub fn read_word(text: &[u8]) -> Option<u16>
    ensures { result ≡ word_of text.now }
{
    if text.len() != 4 {
        return None;
    }
    match number_in(16, text) {
        Ok(n) => Some(n as u16),
        Err(_) => None,
    }
}
