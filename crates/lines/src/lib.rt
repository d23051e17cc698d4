// The lines of a word in a listing, put on a page that the caller lends.
// Keeps 01 "Bench cases": the lister's text.
#![tactic(auto)]

ghost use Rattle.std.specs.Prelude.{◌≡◌, ◌++◌, ◌+◌, ◌≤◌, length};
ghost use Rattle.base.specs.Ascii.{ascii};
ghost use Rattle.text.specs.Digits.{hex_byte, hex_word};
ghost use Rattle.text.specs.Page.{Gets, RoomFor, as_fits};
ghost use Rattle.lines.specs.Bounds as bounds;
ghost use Rattle.lines.specs.Text.{answer_line, dropped_line, lines_of};

use rig::{Answer, Reply};
use text::Page;

// How long lines get (`specs/Bounds`): the line of a word that is judged and of one that dropped a block, and both together.
pub const LINE: usize = 16;

pub const DROP: usize = 16;

pub const PAIR: usize = DROP + LINE;

// A word, and a text behind it.
fn put_said(word: u16, said: &[u8], page: &mut Page)
    requires { RoomFor (bounds.WORD + length said.now) page.old }
    ensures { Gets (hex_word word ++ said.now) page.old page.new }
{
    let digits = text::hex_word(word);
    page.put(&digits);
    page.put(said);
}

// The line of a refused word.
fn put_refused(word: u16, number: u8, page: &mut Page)
    requires { RoomFor bounds.LINE page.old }
    ensures { Gets (hex_word word ++ ascii " refused " ++ hex_byte number ++ ascii "\n") page.old page.new }
{
    let mut said = *b" refused 00\n";
    [said[9], said[10]] = text::hex(number);
    put_said(word, &said, page);
}

// The line of a judged word.
fn put_answer(word: u16, answer: Answer, page: &mut Page)
    requires { RoomFor bounds.LINE page.old }
    ensures { Gets (answer_line word answer) page.old page.new × (page.new.at ≤ page.old.at + bounds.LINE) }
{
    match answer {
        Answer::Accepted => put_said(word, b" accepted\n", page),
        Answer::Waiting => put_said(word, b" waiting\n", page),
        Answer::Refused(why) => put_refused(word, judge::number(why), page),
    }
}

// The line of a word that dropped a block.
#[tactic(auto, unfolding(text::specs::Digits::digit))]
fn put_drop(word: u16, page: &mut Page)
    requires { RoomFor bounds.DROP page.old }
    ensures { Gets (dropped_line word) page.old page.new }
{
    put_said(word, b" dropped 03\n", page);
}

// A dropped block comes first; both lines show the new word.
fn put_pair(word: u16, answer: Answer, page: &mut Page)
    requires { RoomFor bounds.PAIR page.old }
    ensures { Gets (dropped_line word ++ answer_line word answer) page.old page.new × (page.new.at ≤ page.old.at + bounds.PAIR) }
{
    put_drop(word, page);
    put_answer(word, answer, page);
}

fn put_reply(word: u16, reply: Reply, page: &mut Page)
    requires { RoomFor bounds.PAIR page.old }
    ensures { Gets (lines_of word reply) page.old page.new × (page.new.at ≤ page.old.at + bounds.PAIR) }
{
    match reply {
        Reply::Plain(answer) => put_answer(word, answer, page),
        Reply::Swallowed => put_drop(word, page),
        Reply::Dropped(answer) => put_pair(word, answer, page),
    }
}

// The lines of a word. Where the page has no room for the longest pair, nothing is put.
#[tactic(auto, using(text::proofs::Puts::put_nil), unfolding(text::specs::Page::fitting))]
pub fn put_lines(word: u16, reply: Reply, page: &mut Page)
    ensures { Gets (as_fits bounds.PAIR page.old (lines_of word reply)) page.old page.new × (page.new.at ≤ page.old.at + bounds.PAIR) }
{
    if base::has_room(page.at, PAIR, page.bytes.len()) {
        put_reply(word, reply, page);
    }
}
