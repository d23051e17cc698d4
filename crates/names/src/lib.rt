// Names of one length in a text, one after the other, and the name in a row of it.
// For crates `item_names` and `part_names`, which have the names of 01 and of G.
#![tactic(auto)]

ghost use Rattle.std.specs.Prelude.{◌≡◌};
ghost use Rattle.names.specs.Names.{name_in};

// Room for every name.
pub const NAME: usize = 20;

// The name in a row of a text of names, NAME bytes each; blanks past the last.
#[tactic(auto, using(crate::proofs::Chunks::chunk_at), unfolding(crate::specs::Names::name_in))]
pub fn name_in(names: &[u8], row: usize) -> [u8; NAME]
    ensures { result ≡ name_in names.now row }
{
    let (rows, _) = names.as_chunks::<NAME>();
    if row < rows.len() {
        return rows[row];
    }
    [b' '; NAME]
}
