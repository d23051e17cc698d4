// A stream cut into lines, in whatever pieces it comes. What is held of a line is in a buffer that the caller lends.
// For lines that are typed. Nothing is written behind the buffer.
#![tactic(auto)]

ghost use Rattle.std.specs.Prelude.{◌≡◌, drop};
ghost use Rattle.cutting.specs.Cut.{start, grown, kept, said_of, last_of, cut, step_of};

// The most bytes of a line, a carriage return at its end counted.
pub const ROOM: usize = 128;

// How many bytes of the line in hand have come: they are at the front of the buffer. More than ROOM stands for a line that is too long.
#[derive(Clone, Copy)]
pub struct Held(pub usize);

// What a call says: a line is ready, so many bytes at the front of the buffer; a line was too long; or no line is ready.
// Three answers of equal standing: an Option or a Result would put two of them into a second enum.
#[derive(Clone, Copy)]
pub enum Said {
    Line(usize),
    TooLong,
    Nothing,
}

// What is held then, the place of the piece where the next call goes on, and what is said.
#[derive(Clone, Copy)]
pub struct Step {
    pub held: Held,
    pub at: usize,
    pub said: Said,
}

// No byte has come.
pub fn begin() -> Held
    ensures { result ≡ start }
{
    Held(0)
}

// One byte more of the line: to its place, where there is one.
fn keep(got: usize, byte: u8, line: &mut [u8; ROOM]) -> usize
    ensures { (result ≡ grown got) × (line.new ≡ kept got byte line.old) }
{
    if got < ROOM {
        line[got] = byte;
        got + 1
    } else {
        ROOM + 1
    }
}

// What is said of a line that has ended: a carriage return at its end is no part of it.
fn say(got: usize, line: &[u8; ROOM]) -> Said
    ensures { result ≡ said_of got line.now }
{
    if ROOM < got {
        Said::TooLong
    } else if line[..got].ends_with(b"\r") {
        Said::Line(got - 1)
    } else {
        Said::Line(got)
    }
}

// The piece from a place on, up to the end of the line or of the piece.
pub fn next(held: Held, piece: &[u8], at: usize, line: &mut [u8; ROOM]) -> Step
    ensures { (result ≡ step_of (cut held.0 line.old at (drop at piece.now)))
        × (line.new ≡ (cut held.0 line.old at (drop at piece.now)).line) }
{
    let mut got = held.0;
    for place in at..piece.len() {
        let byte = piece[place];
        if byte == b'\n' {
            return Step {
                held: Held(0),
                at: place + 1,
                said: say(got, line),
            };
        }
        got = keep(got, byte, line);
    }
    Step {
        held: Held(got),
        at: at.max(piece.len()),
        said: Said::Nothing,
    }
}

// The stream has ended: the last line, where it has no newline.
pub fn finish(held: Held, line: &[u8; ROOM]) -> Said
    ensures { result ≡ last_of held.0 line.now }
{
    if held.0 == 0 {
        Said::Nothing
    } else {
        say(held.0, line)
    }
}
