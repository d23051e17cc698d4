// What the bytes of a data block tell of it: its kind and its descriptors.
// Keeps 01 "Data blocks" and the rows 19 to 21 of "What the numbers mean". What a kind is, is said in crate `block`.
#![tactic(auto)]

ghost use Rattle.std.specs.Prelude.{◌≡◌, ◌+◌, ◌≤◌, length};
ghost use Rattle.block.specs.Kinds.{length_of, second_at};
ghost use Rattle.block.specs.Layout.{marker, inner, layout_of};
ghost use Rattle.block.specs.Steps.{as_kind};
ghost use Rattle.layout.specs.Steps.{kind_by};

use block::{Kind, Layout, Refusal};

// Where the first content descriptor stands.
const D1: usize = 0x004;

// Where the second content descriptor stands.
fn second_at(kind: Kind) -> usize
    ensures { result ≡ second_at kind }
{
    match kind {
        Kind::Nm => 0x14F,
        Kind::Bm1 => 0x154,
    }
}

// Whether the three bytes at a place are x, y and z.
#[tactic(auto, unfolding(block::specs::Layout::marker))]
fn is_marker(b: &[u8], at: usize, x: u8, y: u8, z: u8) -> bool
    requires { at + 3 ≤ length b.now }
    ensures { result ≡ marker b.now at x y z }
{
    b[at..at + 3] == [x, y, z]
}

// Whether the inner markers of a kind stand, if it has any.
fn is_inner(b: &[u8], kind: Kind) -> bool
    requires { length b.now ≡ length_of kind }
    ensures { result ≡ inner b.now kind }
{
    match kind {
        Kind::Nm => true,
        Kind::Bm1 => is_marker(b, 0x212, 0x4C, 0x43, 0xE2) && is_marker(b, 0x475, 0x54, 0xE1, 0xE1),
    }
}

// What follows a kind's marker. A memory dump has only the first marker, so neither descriptor 2 nor the inner ones are looked at there.
#[tactic(auto, unfolding(block::specs::Steps::as_kind))]
fn layout_as(b: &[u8], kind: Kind) -> Result<Layout, Refusal>
    ensures { result ≡ as_kind b.now kind }
{
    if b.len() != block::length_of(kind) {
        return Err(Refusal::WrongLength);
    }
    let d1 = b[D1];
    if d1 / 4 % 2 == 1 {
        return Ok(Layout { kind, d1, d2: 0 });
    }
    if !is_inner(b, kind) {
        return Err(Refusal::InnerMarker);
    }
    let d2 = b[second_at(kind)];
    Ok(Layout { kind, d1, d2 })
}

// The kind that the third byte of a marker tells.
fn kind_by(third: u8) -> Result<Kind, Refusal>
    ensures { result ≡ kind_by third }
{
    match third {
        block::NM_MARKER => Ok(Kind::Nm),
        block::BM1_MARKER => Ok(Kind::Bm1),
        _ => Err(Refusal::NoMarker),
    }
}

// What a block is, with its two content descriptors; or the first of 20 (under 3 bytes), 19, 20, 21 that it is refused with. Each arm names the kind,
// so that the compiler makes the tests of each kind apart.
#[tactic(auto, using(crate::proofs::Laws::begun, crate::proofs::Laws::unknown, block::proofs::Laws::unmarked), unfolding(block::specs::Layout::layout_of, block::specs::Layout::marker))]
pub fn layout_of(b: &[u8]) -> Result<Layout, Refusal>
    ensures { result ≡ layout_of b.now }
{
    match b {
        [0x14, 0x6F, third, ..] => match kind_by(*third)? {
            Kind::Nm => layout_as(b, Kind::Nm),
            Kind::Bm1 => layout_as(b, Kind::Bm1),
        },
        [_, _, _, ..] => Err(Refusal::NoMarker),
        _ => Err(Refusal::WrongLength),
    }
}
