// Whether a text is exactly a name, byte for byte.
// For names that are typed. Capitals and small letters are told apart. What compares is std's `==`; here it gets an equation for its promise.
#![tactic(auto)]

ghost use Rattle.std.specs.Prelude.{◌≡◌};
ghost use Rattle.spelling.specs.Same.{same};

// Whether a text is exactly this name.
#[tactic(auto, using(crate::proofs::Equal::by_pairs))]
pub fn spells(text: &[u8], name: &[u8]) -> bool
    ensures { result ≡ same text.now name.now }
{
    text == name
}
