// The words of a line: what stands between its spaces; how many there are, and each by its number.
// For lines that are typed. Only a space parts words, and several count as one; a tab is a letter.
#![tactic(auto)]

ghost use Rattle.std.specs.Prelude.{◌≡◌, [], length, get_or};
ghost use Rattle.splitting.specs.Words.{words_of, is_space, is_word};

fn is_space(b: &u8) -> bool
    ensures { result ≡ is_space b.now }
{
    *b == b' '
}

// Two spaces that stand together have no word between them.
fn is_word(stretch: &[u8]) -> bool
    ensures { result ≡ is_word stretch.now }
{
    !stretch.is_empty()
}

// How many words a line has.
pub fn count(line: &[u8]) -> usize
    ensures { result ≡ length (words_of line.now) }
{
    let mut words = 0;
    let mut start = 0;
    for (at, b) in line.iter().enumerate() {
        if is_space(b) {
            if is_word(&line[start..at]) {
                words += 1;
            }
            start = at + 1;
        }
    }
    if is_word(&line[start..]) {
        words += 1;
    }
    words
}

// A word of a line by its number, from 0 on; none past the last.
pub fn word(line: &[u8], k: usize) -> &[u8]
    ensures { result.now ≡ get_or (words_of line.now) k [] }
{
    let mut before = k;
    let mut start = 0;
    for (at, b) in line.iter().enumerate() {
        if is_space(b) {
            if is_word(&line[start..at]) {
                if before == 0 {
                    return &line[start..at];
                }
                before -= 1;
            }
            start = at + 1;
        }
    }
    if before == 0 { &line[start..] } else { &[] }
}
