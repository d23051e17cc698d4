// The names of the menu's rows, and the row that the first words of a line name.
// Keeps 02 (i): a named command; (iv): the rows of one supply behind those of another, each with target, limit, stepping. A name is one word or two.
#![tactic(auto)]

ghost use Rattle.std.specs.Prelude.{◌≡◌, ◌≤◌, length};
ghost use Rattle.menu_names.specs.Names.{name_words, name_of, called, row_found};

use names::NAME;

pub const ROWS: usize = 19;

// The name of a row, and blanks behind it; blanks alone past the last.
// One text, by the row: the edits `one_word_for_two` and `limit_and_target_swapped`, and those of crate `names`, are edits of such a text.
pub fn name_of(row: usize) -> [u8; NAME]
    ensures { result ≡ name_of row }
{
    let names: &[u8] =
        b"relay on            relay off           relay both          relay neither       head mask           \
        stop target         stop limit          stop stepping       start target        start limit         start stepping      \
        deflection target   deflection limit    deflection stepping mode                iel                 \
        multiplexers        direction window    energy window       ";
    names::name_in(names, row)
}

// How many words the name of a row has.
#[tactic(auto, using(crate::proofs::Rows::words_at, crate::proofs::Rows::at_most_two))]
pub fn words_in(row: usize) -> usize
    ensures { (result ≡ length (name_words row)) × (result ≤ 2) }
{
    let name = name_of(row);
    splitting::count(&name)
}

// Whether two words name a row, the second of which counts where the name has two. The first is asked first: most rows begin with another word, and
// the words of their names are not counted.
#[tactic(auto, using(crate::proofs::Rows::words_at, crate::proofs::Called::no_words, crate::proofs::Called::other_word, crate::proofs::Called::one_word, crate::proofs::Called::two_words))]
fn is_called(row: usize, first: &[u8], second: &[u8]) -> bool
    ensures { result ≡ called (name_words row) first.now second.now }
{
    let name = name_of(row);
    if !spelling::spells(first, splitting::word(&name, 0)) {
        return false;
    }
    match splitting::count(&name) {
        0 => false,
        1 => true,
        _ => spelling::spells(second, splitting::word(&name, 1)),
    }
}

// The first row that two words name.
pub fn find(first: &[u8], second: &[u8]) -> Option<usize>
    ensures { result ≡ row_found first.now second.now }
{
    (0..ROWS).find(|row| is_called(*row, first, second))
}
