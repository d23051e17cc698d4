// The answer to a typed line, as text in a page that the caller lends: a command's words in hex, one a line; what words mean, in plain words; a refusal's number.
// Keeps 02 (i): what the class gets for what it types.
#![tactic(auto)]

ghost use Rattle.std.specs.Prelude.{◌≡◌, ◌++◌, ◌+◌, ◌*◌, ◌≤◌, length};
ghost use Rattle.base.specs.Ascii.{ascii};
ghost use Rattle.text.specs.Page.{Puts, fitting, Gets, RoomFor};
ghost use Rattle.plain_words.specs.Plain.{plain_of};
ghost use Rattle.answering.specs.Answers.{hex_line, hex_lines, refused_line, order_lines, answer_of, line_answer};

use asking::Asked;
use cutting::{ROOM, Said};
use text::Page;
use wording::{Command, Refusal};

// How long an answer gets at most.
pub const PAGE: usize = 32;

// A word in hex and the end of its line.
fn hex_line(word: u16) -> [u8; 5]
    ensures { result ≡ hex_line word }
{
    let [a, b, c, d] = text::hex_word(word);
    [a, b, c, d, b'\n']
}

// Words in hex, one a line.
fn put_lines(words: &[u16], page: &mut Page)
    requires { RoomFor (5 * length words.now) page.old }
    ensures { Gets (hex_lines words.now) page.old page.new }
{
    for word in words {
        page.put(&hex_line(*word));
    }
}

fn put_refused(why: Refusal, page: &mut Page)
    requires { RoomFor 12 page.old }
    ensures { Gets (refused_line why) page.old page.new × (page.new.at ≤ page.old.at + 12) }
{
    page.put(b"refused ");
    numerals::put_decimal(u32::from(wording::number(why)), page);
    page.put(b"\n");
}

// A command's words, or why there are none.
fn put_order(c: Command, page: &mut Page)
    requires { RoomFor 20 page.old }
    ensures { Gets (order_lines c) page.old page.new × (page.new.at ≤ page.old.at + 20) }
{
    let mut words = [0u16; 4];
    match word_writer::write(c, &mut words) {
        Ok(n) => put_lines(&words[..n], page),
        Err(why) => put_refused(why, page),
    }
}

// A command in plain words, on a line.
fn put_command(c: Command, page: &mut Page)
    requires { RoomFor 29 page.old }
    ensures { Gets (plain_of c ++ ascii "\n") page.old page.new × (page.new.at ≤ page.old.at + 29) }
{
    plain_words::put_plain(c, page);
    page.put(b"\n");
}

fn put_asked(asked: Asked, page: &mut Page)
    requires { RoomFor 32 page.old }
    ensures { Gets (answer_of asked) page.old page.new × (page.new.at ≤ page.old.at + 32) }
{
    match asked {
        Asked::Order(c) => put_order(c, page),
        Asked::TooWide => put_refused(Refusal::TooWide, page),
        Asked::Means(Ok(c)) => put_command(c, page),
        Asked::Means(Err(why)) => put_refused(why, page),
        Asked::NotRead => page.put(b"not read\n"),
    }
}

// The answer to what a line asks for, at the front of a page: so a slice is lent, and no place with it. Where the page has no room for the longest answer, nothing is put.
#[tactic(auto, using(plain_words::proofs::Names::fitted, text::proofs::Puts::left_out))]
pub fn put_answer(asked: Asked, page: &mut [u8]) -> usize
    ensures { Puts 0 (fitting 32 0 page.old (answer_of asked)) page.old result page.new × (result ≤ 32) }
{
    if page.len() < PAGE {
        return 0;
    }
    let mut page = Page { bytes: page, at: 0 };
    put_asked(asked, &mut page);
    page.at
}

// The answer to a line that a stream has brought: to one that is too long too, and none where there is no line.
#[tactic(auto, using(text::proofs::Puts::put_nil, crate::proofs::Orders::nothing))]
pub fn put_reply(said: Said, line: &[u8; ROOM], page: &mut [u8]) -> usize
    ensures { Puts 0 (fitting 32 0 page.old (line_answer said line.now)) page.old result page.new × (result ≤ 32) }
{
    match said {
        Said::Line(n) => match line.get(..n) {
            Some(whole) => put_answer(asking::read_line(whole), page),
            None => 0,
        },
        Said::TooLong => put_answer(Asked::NotRead, page),
        Said::Nothing => 0,
    }
}
