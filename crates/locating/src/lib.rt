// Where a part stands in a data block, and its bytes.
// Keeps 01 "Data blocks" and the rows 19 to 23 of "What the numbers mean". What a block is, is told by crate `layout`.
#![tactic(auto)]

ghost use Rattle.std.specs.Prelude.{◌≡◌};
ghost use Rattle.block.specs.Parts.{locate_of, bytes_of};

use block::{Part, Place, Refusal};

// Where a part stands: its first byte and its length; or the refusal.
#[tactic(auto, using(block::proofs::Laws::unlocated, block::proofs::Laws::located_by))]
pub fn locate(b: &[u8], part: Part) -> Result<Place, Refusal>
    ensures { result ≡ locate_of b.now part }
{
    placing::place_of(layout::layout_of(b)?, part)
}

// The bytes of the caller's slice that stand at a place; none where it is a refusal, or the slice ends before it. Nothing is judged.
pub fn slice_of(b: &[u8], place: Result<Place, Refusal>) -> &[u8]
    ensures { result.now ≡ bytes_of b.now place }
{
    match place {
        Ok(Place { at, len }) => b.get(at..).and_then(|rest| rest.get(..len)).unwrap_or(&[]),
        Err(_) => &[],
    }
}
