// What a typed line asks for: a command by its name and its settings, or what words in hex mean.
// Keeps 02 (i): the class picks from a menu; a reader takes words back. A setting that no byte holds is too wide; a line that is neither is not read.
#![tactic(auto)]

ghost use Rattle.std.specs.Prelude.{◌≡◌, [], length, get_or, drop, Some};
ghost use Rattle.splitting.specs.Words.{words_of};
ghost use Rattle.numerals.specs.Hex.{word_of};
ghost use Rattle.menu_names.specs.Names.{name_words};
ghost use Rattle.asking.specs.Asks.{bad_setting_of, setting_in, ordered_of, order_of, four_hex, meant_of, ask_of};

use menu_rows::Entry;
use numerals::BadNumber;
use wording::{Command, Refusal};

// What a line asks for. TooWide: a setting that no byte holds.
// Four answers of equal standing: a Result would put three of them into a second enum.
#[derive(Clone, Copy)]
pub enum Asked {
    Order(Command),
    TooWide,
    Means(Result<Command, Refusal>),
    NotRead,
}

// Why what was typed is no setting.
#[derive(Clone, Copy)]
pub enum BadSetting {
    Wide,
    NoNumber,
}

impl From<BadNumber> for BadSetting {
    ghost from_gives = { λ n s. s ≡ bad_setting_of n };

    fn from(n: BadNumber) -> BadSetting {
        match n {
            BadNumber::NotANumber => BadSetting::NoNumber,
            BadNumber::TooLarge => BadSetting::Wide,
        }
    }
}

// The setting that a word of the line spells, where there is to be one.
fn setting_at(line: &[u8], k: usize, there: bool) -> Result<u8, BadSetting>
    ensures { result ≡ setting_in there (get_or (words_of line.now) k []) }
{
    if !there {
        return Ok(0);
    }
    let n = numerals::read_number(splitting::word(line, k))?;
    u8::try_from(n).map_err(|_| BadSetting::Wide)
}

// The command of a row with two settings. What is no number is not read; then a setting too wide.
fn ordered(row: usize, a: Result<u8, BadSetting>, b: Result<u8, BadSetting>) -> Asked
    ensures { result ≡ ordered_of row a b }
{
    match (a, b) {
        (Ok(first), Ok(second)) => Asked::Order(menu_rows::command(Entry { row, first, second })),
        (Err(BadSetting::NoNumber), _) | (_, Err(BadSetting::NoNumber)) => Asked::NotRead,
        _ => Asked::TooWide,
    }
}

// The command of a row, with the settings behind its name: as many as the row takes, or it is not read.
#[tactic(auto, using(crate::proofs::Lines::as_many, crate::proofs::Lines::more_or_fewer))]
fn order(line: &[u8], row: usize) -> Asked
    ensures { result ≡ order_of row (drop (length (name_words row)) (words_of line.now)) }
{
    let named = menu_names::words_in(row);
    let wanted = menu_rows::settings(row);
    if splitting::count(line).saturating_sub(named) != wanted {
        return Asked::NotRead;
    }
    let first = setting_at(line, named, 0 < wanted);
    let second = setting_at(line, named + 1, 1 < wanted);
    ordered(row, first, second)
}

// Four words in hex, the first of which is read.
fn four(line: &[u8], a: u16) -> Result<Command, Refusal>
    ensures { result ≡ four_hex a (word_of (get_or (words_of line.now) 1 []))
        (word_of (get_or (words_of line.now) 2 [])) (word_of (get_or (words_of line.now) 3 [])) }
{
    let b = numerals::read_word(splitting::word(line, 1)).ok_or(Refusal::NotOne)?;
    let c = numerals::read_word(splitting::word(line, 2)).ok_or(Refusal::NotOne)?;
    let d = numerals::read_word(splitting::word(line, 3)).ok_or(Refusal::NotOne)?;
    word_reader::read(&[a, b, c, d])
}

// What a line of words in hex means, the first of which is read.
#[tactic(auto, using(crate::proofs::Lines::one_word, crate::proofs::Lines::four_words, crate::proofs::Lines::other_words))]
fn meant(line: &[u8], a: u16) -> Result<Command, Refusal>
    requires { word_of (get_or (words_of line.now) 0 []) ≡ Some a }
    ensures { result ≡ meant_of (words_of line.now) }
{
    match splitting::count(line) {
        1 => word_reader::read(&[a]),
        4 => four(line, a),
        _ => Err(Refusal::NotOne),
    }
}

// What a line asks for: a row of the menu by its name, or what words in hex mean.
#[tactic(auto, unfolding(crate::specs::Asks::ask_of, crate::specs::Asks::hex_of))]
pub fn read_line(line: &[u8]) -> Asked
    ensures { result ≡ ask_of (words_of line.now) }
{
    if let Some(row) = menu_names::find(splitting::word(line, 0), splitting::word(line, 1)) {
        return order(line, row);
    }
    match numerals::read_word(splitting::word(line, 0)) {
        Some(a) => Asked::Means(meant(line, a)),
        None => Asked::NotRead,
    }
}
