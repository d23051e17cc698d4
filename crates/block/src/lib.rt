// Data blocks (EDBs), NM and BM1: their kinds and parts, and why one is refused. Where a part of a kind stands is told by crate `placing`.
// Keeps 01 "Data blocks" and the rows 19 to 23 of "What the numbers mean".
#![tactic(auto)]

ghost use Rattle.std.specs.Prelude.{◌≡◌};
ghost use Rattle.block.specs.Refusals.{number_of};
ghost use Rattle.block.specs.Kinds.{length_of, marker_of};

// Why nothing is handed back: 19 to 24. The last is of the IFFT block alone.
#[derive(Clone, Copy, PartialEq, Eq)]
pub enum Refusal {
    NoMarker,
    WrongLength,
    InnerMarker,
    Beyond,
    Hidden,
    NotIfft,
}

// The kinds of blocks.
#[derive(Clone, Copy, PartialEq, Eq)]
pub enum Kind {
    Nm,
    Bm1,
}

// What a block is, with its two content descriptors. The second counts as 0 where it is not looked at.
#[derive(Clone, Copy)]
pub struct Layout {
    pub kind: Kind,
    pub d1: u8,
    pub d2: u8,
}

// The parts of G's position tables, in the order of NM's.
#[derive(Clone, Copy)]
pub enum Part {
    Marker,
    Index,
    Descriptor1,
    Calibration,
    MSigns,
    Sgl0,
    DirectEvents,
    HSpct,
    ISpct,
    Sgl1,
    Sgl2,
    Sgl3,
    IPad,
    I3dd,
    Mtrx,
    Descriptor2,
    EPad,
    E3dd,
    M,
}

// Where a part stands: its first byte and its length.
#[derive(Clone, Copy)]
pub struct Place {
    pub at: usize,
    pub len: usize,
}

// The third byte of a kind's marker, after 14 6F.
pub const NM_MARKER: u8 = 0x2E;

pub const BM1_MARKER: u8 = 0x3D;

// The number that 01 gives a refusal.
pub fn number(refusal: Refusal) -> u8
    ensures { result ≡ number_of refusal }
{
    match refusal {
        Refusal::NoMarker => 19,
        Refusal::WrongLength => 20,
        Refusal::InnerMarker => 21,
        Refusal::Beyond => 22,
        Refusal::Hidden => 23,
        Refusal::NotIfft => 24,
    }
}

// How many bytes a block of a kind has.
pub fn length_of(kind: Kind) -> usize
    ensures { result ≡ length_of kind }
{
    match kind {
        Kind::Nm => 512,
        Kind::Bm1 => 2304,
    }
}

// The third byte of a kind's marker.
pub fn marker_of(kind: Kind) -> u8
    ensures { result ≡ marker_of kind }
{
    match kind {
        Kind::Nm => NM_MARKER,
        Kind::Bm1 => BM1_MARKER,
    }
}
