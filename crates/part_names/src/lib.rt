// The parts of a data block by number and by name, for those who list them or ask for one.
// Keeps 01 "Data blocks", the parts of G's position tables.
#![tactic(auto)]

ghost use Rattle.std.specs.Prelude.{◌≡◌};
ghost use Rattle.part_names.specs.Names.{part_name, part_in};

use block::Part;
use names::NAME;

// How many parts G's position tables have between them.
pub const PARTS: usize = 19;

// The part of a number, in the order of NM's table, or none past the last.
pub fn part_in(n: usize) -> Option<Part>
    ensures { result ≡ part_in n }
{
    match n {
        0 => Some(Part::Marker),
        1 => Some(Part::Index),
        2 => Some(Part::Descriptor1),
        3 => Some(Part::Calibration),
        4 => Some(Part::MSigns),
        5 => Some(Part::Sgl0),
        6 => Some(Part::DirectEvents),
        7 => Some(Part::HSpct),
        8 => Some(Part::ISpct),
        9 => Some(Part::Sgl1),
        10 => Some(Part::Sgl2),
        11 => Some(Part::Sgl3),
        12 => Some(Part::IPad),
        13 => Some(Part::I3dd),
        14 => Some(Part::Mtrx),
        15 => Some(Part::Descriptor2),
        16 => Some(Part::EPad),
        17 => Some(Part::E3dd),
        18 => Some(Part::M),
        _ => None,
    }
}

// The name of a part, as G's position tables have it, and blanks behind it.
pub fn part_name(part: Part) -> [u8; NAME]
    ensures { result ≡ part_name part }
{
    let names: &[u8] =
        b"marker              index               descriptor1         calibration         m-signs             SGL0                \
        direct-events       H-SPCT              I-SPCT              SGL1                SGL2                SGL3                \
        I-PAD               I-3DD               MTRX                descriptor2         E-PAD               E-3DD               \
        m                   ";
    names::name_in(names, placing::row_of(part))
}
