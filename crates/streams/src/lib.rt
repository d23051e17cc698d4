// An input read to its end, piece by piece, and what failed said on standard error.
// For the programs that read a stream. What a piece means is the caller's: it comes as a step.
#![tactic(auto)]

ghost use Rattle.std.specs.Prelude.{◌≡◌, ℕ, List, Result, IfOk};
ghost use Rattle.std.specs.declared.io.Error.{Error};
ghost use Rattle.std.specs.Io.KnownBytes.{Consumes};
ghost use Rattle.streams.specs.Folded.{Folded};

use std::io;
use std::io::Read;

// The most bytes that are read at once.
pub const PIECE: usize = 4096;

// Where a result is an error, says on standard error what failed. The result is handed back as it is.
pub fn or_say<T: Drop>(rt: &impl Eprint, why: &str, outcome: io::Result<T>) -> io::Result<T>
    ensures { result ≡ outcome }
{
    if outcome.is_err() {
        let _ = rt.eprint(why);
    }
    outcome
}

// What a program makes of a piece of its input, with a state that it carries on. It takes every number for how many bytes came.
pub trait Step<S> {
    // What a call may come to: of the step and the state before it, the piece and how many bytes of it came, the outcome, and the step after it.
    ghost comes_to: { Self → S → List ℕ → ℕ → Result S Error → Self → Type 0 };

    fn step(&mut self, state: S, piece: &[u8; PIECE], n: usize) -> io::Result<S>
        ensures { comes_to self.old state piece.now n result self.new };
}

// Reads to the end of the input, and folds what comes: the step takes the state so far and a piece of which n bytes came, and answers the next state.
// An error of the step ends the reading. A proved loop has to end, and nothing says that the input does: so it has 2^64 - 1 turns.
pub fn fold<S: Drop, F: Step<S> + Drop, I: Read>(
    rt: &impl Eprint,
    why: &str,
    input: &mut I,
    start: S,
    mut step: F,
) -> io::Result<S>
    ensures { IfOk result (λ end. (read : _) × (last : F) × Folded F.comes_to step start read last end × Consumes (I.remaining input.old) (I.remaining input.new) read) }
{
    let mut piece = [0u8; PIECE];
    let mut state = start;
    for _ in 0..u64::MAX {
        let n = or_say(rt, why, input.read(&mut piece))?;
        if n == 0 {
            break;
        }
        state = step.step(state, &piece, n)?;
    }
    Ok(state)
}
