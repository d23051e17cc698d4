// Where a part of a kind of data block stands, which parts test data hide, and the number of a part.
// Keeps 01 "Data blocks" and the rows 22 and 23 of "What the numbers mean". What a kind and a part are is said in crate `block`.
#![tactic(auto)]

ghost use Rattle.std.specs.Prelude.{◌≡◌, ◌<◌, Some};
ghost use Rattle.block.specs.Layout.{bit};
ghost use Rattle.block.specs.Tables.{row_of};
ghost use Rattle.block.specs.Parts.{place_of};
ghost use Rattle.placing.specs.Steps.{group_of, hides, row_at};

use block::{Kind, Layout, Part, Place, Refusal};

// Which test data hide a part: none; those of the whole block; those and the ions' or the electrons' own.
#[derive(Clone, Copy)]
enum Group {
    Open,
    Whole,
    Ions,
    Electrons,
}

// A row of a table: a part's first byte and its length.
fn row(at: usize, len: usize) -> Option<Place>
    ensures { result ≡ Some (record { at = at; len = len }) }
{
    Some(Place { at, len })
}

// G's position table of NM, which has all the parts.
fn nm_row(part: Part) -> Option<Place>
    ensures { result ≡ row_at Kind.Nm part }
{
    match part {
        Part::Marker => row(0x000, 3),
        Part::Index => row(0x003, 1),
        Part::Descriptor1 => row(0x004, 1),
        Part::Calibration => row(0x005, 2),
        Part::MSigns => row(0x007, 2),
        Part::Sgl0 => row(0x009, 1),
        Part::DirectEvents => row(0x00A, 60),
        Part::HSpct => row(0x046, 8),
        Part::ISpct => row(0x04E, 4),
        Part::Sgl1 => row(0x052, 1),
        Part::Sgl2 => row(0x053, 3),
        Part::Sgl3 => row(0x056, 1),
        Part::IPad => row(0x057, 96),
        Part::I3dd => row(0x0B7, 144),
        Part::Mtrx => row(0x147, 8),
        Part::Descriptor2 => row(0x14F, 1),
        Part::EPad => row(0x150, 96),
        Part::E3dd => row(0x1B0, 72),
        Part::M => row(0x1F8, 8),
    }
}

// G's position table of BM1.
fn bm1_row(part: Part) -> Option<Place>
    ensures { result ≡ row_at Kind.Bm1 part }
{
    match part {
        Part::Marker => row(0x000, 3),
        Part::Index => row(0x003, 1),
        Part::Descriptor1 => row(0x004, 1),
        Part::Calibration => row(0x005, 2),
        Part::MSigns => row(0x007, 2),
        Part::Sgl0 => None,
        Part::DirectEvents => row(0x00A, 318),
        Part::HSpct => row(0x148, 8),
        Part::ISpct => row(0x150, 4),
        Part::Sgl1 => row(0x156, 80),
        Part::Sgl2 => row(0x1A6, 9),
        Part::Sgl3 => row(0x1AF, 3),
        Part::IPad => row(0x1B2, 96),
        Part::I3dd => row(0x215, 576),
        Part::Mtrx => row(0x455, 32),
        Part::Descriptor2 => row(0x154, 1),
        Part::EPad => None,
        Part::E3dd => row(0x478, 1152),
        Part::M => row(0x8F8, 8),
    }
}

// The number of a part, from 0.
pub fn row_of(part: Part) -> usize
    ensures { result ≡ row_of part }
{
    match part {
        Part::Marker => 0,
        Part::Index => 1,
        Part::Descriptor1 => 2,
        Part::Calibration => 3,
        Part::MSigns => 4,
        Part::Sgl0 => 5,
        Part::DirectEvents => 6,
        Part::HSpct => 7,
        Part::ISpct => 8,
        Part::Sgl1 => 9,
        Part::Sgl2 => 10,
        Part::Sgl3 => 11,
        Part::IPad => 12,
        Part::I3dd => 13,
        Part::Mtrx => 14,
        Part::Descriptor2 => 15,
        Part::EPad => 16,
        Part::E3dd => 17,
        Part::M => 18,
    }
}

// Whether bit k of a descriptor is set.
fn is_set(d: u8, k: u32) -> bool
    requires { k < 8 }
    ensures { result ≡ bit d k }
{
    (d >> k) & 1 == 1
}

// The test data that hide a part.
fn group_of(part: Part) -> Group
    ensures { result ≡ group_of part }
{
    match part {
        Part::Marker | Part::Index | Part::Descriptor1 => Group::Open,
        Part::Descriptor2 => Group::Whole,
        Part::EPad | Part::E3dd | Part::M => Group::Electrons,
        _ => Group::Ions,
    }
}

// Whether test data hide this group. Bits together hide what each of them hides; `|` reads them all, with no branch.
fn is_hidden(group: Group, d1: u8, d2: u8) -> bool
    ensures { result ≡ hides group d1 d2 }
{
    match group {
        Group::Open => false,
        Group::Whole => is_set(d1, 2),
        Group::Ions => is_set(d1, 2) | is_set(d1, 0) | is_set(d1, 3),
        Group::Electrons => is_set(d1, 2) | is_set(d1, 1) | is_set(d2, 7),
    }
}

// The row of a part in the table of a kind; none where the kind lacks it.
fn row_in(kind: Kind, part: Part) -> Option<Place>
    ensures { result ≡ row_at kind part }
{
    match kind {
        Kind::Nm => nm_row(part),
        Kind::Bm1 => bm1_row(part),
    }
}

// Where a part of a kind stands under these descriptors: its first byte and its length; or 22, or 23.
// 22 before 23: a part that a kind does not have is never called hidden.
#[tactic(auto, using(crate::proofs::Laws::lacking, crate::proofs::Laws::hiding, crate::proofs::Laws::found))]
fn place_as(kind: Kind, d1: u8, d2: u8, part: Part) -> Result<Place, Refusal>
    ensures { result ≡ place_of kind d1 d2 part }
{
    let place = row_in(kind, part).ok_or(Refusal::Beyond)?;
    if is_hidden(group_of(part), d1, d2) {
        return Err(Refusal::Hidden);
    }
    Ok(place)
}

// Where a part stands in a block of this layout; or 22, or 23. Each arm names the kind, so that the compiler makes one choice by the part for each.
pub fn place_of(layout: Layout, part: Part) -> Result<Place, Refusal>
    ensures { result ≡ place_of layout.kind layout.d1 layout.d2 part }
{
    match layout.kind {
        Kind::Nm => place_as(Kind::Nm, layout.d1, layout.d2, part),
        Kind::Bm1 => place_as(Kind::Bm1, layout.d1, layout.d2, part),
    }
}
