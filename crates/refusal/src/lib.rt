// What a call answers where it does not grant: the number that document 01 or 02 gives it, and the index it speaks of.
//
//     return Err(Refusal::of(Kind::TooLarge));
//     assert_eq!(rt; Kind::TooLarge.number(), 2);
//     assert_eq!(rt; Kind::from(19).number(), 19);
//     assert_eq!(rt; Kind::from(200).number(), 200);
//
// The index counts from 0: the update's where the refusal is given per update, the row's where per row, the slab's where a
// batch finds no free slot, and 0 elsewhere.
#![tactic(auto)]

ghost use Rattle.std.specs.Prelude.{◌≡◌, IsTrue};
ghost use Rattle.refusal.specs.Numbers.{is_unlisted};

use std::fmt;

// A number that the documents give to no refusal: 0, or one past theirs.
#[derive(Clone, Copy, Debug, PartialEq, Eq)]
pub struct Unlisted {
    pub number: u8,
    pub ghost unlisted: { IsTrue (is_unlisted number) },
}

// Why a call does not grant, in the order of the documents' numbers; those from 18 on are document 02's.
#[derive(Clone, Copy, Debug, PartialEq, Eq)]
pub enum Kind {
    // A lent slice or a capacity has a wrong length or value.
    WrongShape,
    // An object beyond the largest class.
    TooLarge,
    // A slab, a slot or a packed location out of range.
    OutOfRange,
    // The check differs.
    CheckDiffers,
    // A stored length, or an object to be written, longer than its slot takes.
    TooLong,
    // The version of a cookie, or of a snapshot block, is unknown.
    UnknownVersion,
    // The fanout differs.
    FanoutDiffers,
    // Id 0, an id at or past capacity, one not held or, in a lookup, one without location.
    NoSuchId,
    // The id of an earlier update of the batch, or of an earlier rebuild row.
    RepeatedId,
    // No free number.
    NoneFree,
    // A batch is open.
    BatchOpen,
    // No batch is open.
    NoBatch,
    // The tables contradict each other, or a kept batch is none.
    TablesDisagree,
    // A fill ratio r or a target t out of range.
    RatioOutOfRange,
    // Over 256 updates.
    TooMany,
    // A rebuild row has an earlier row's location.
    RepeatedLocation,
    // A cut is reported where the test says keep.
    NothingToCut,
    // Bytes between object and frame are not zero.
    GapNotZero,
    // A snapshot block's number, count, padding, key or row order is wrong, or its version is not that of the block before.
    WrongBlock,
    // Chunks run past the told length, or end before it.
    WrongEnd,
    // A key over 64 bytes.
    KeyTooLong,
    // The ratio or the capacities differ.
    SettingsDiffer,
    // A row of a plan is bad.
    BadMove,
    // No face covers the code point.
    NoFace,
    // A range ends before it starts, two of a face overlap, or a face id comes twice.
    BadFace,
    // A total would pass 64 bits, a location names no slab, or a length is of another class.
    TotalsRefused,
    // Any other number, so that each byte is one kind's.
    Unlisted(Unlisted),
}

impl Kind {
    ghost use Rattle.refusal.specs.Refusals.{number_of};

    // The number that the documents give it, 1 to 26; else the one that is unlisted.
    pub fn number(self) -> u8
        ensures { result ≡ number_of self }
    {
        match self {
            Kind::WrongShape => 1,
            Kind::TooLarge => 2,
            Kind::OutOfRange => 3,
            Kind::CheckDiffers => 4,
            Kind::TooLong => 5,
            Kind::UnknownVersion => 6,
            Kind::FanoutDiffers => 7,
            Kind::NoSuchId => 8,
            Kind::RepeatedId => 9,
            Kind::NoneFree => 10,
            Kind::BatchOpen => 11,
            Kind::NoBatch => 12,
            Kind::TablesDisagree => 13,
            Kind::RatioOutOfRange => 14,
            Kind::TooMany => 15,
            Kind::RepeatedLocation => 16,
            Kind::NothingToCut => 17,
            Kind::GapNotZero => 18,
            Kind::WrongBlock => 19,
            Kind::WrongEnd => 20,
            Kind::KeyTooLong => 21,
            Kind::SettingsDiffer => 22,
            Kind::BadMove => 23,
            Kind::NoFace => 24,
            Kind::BadFace => 25,
            Kind::TotalsRefused => 26,
            Kind::Unlisted(unlisted) => unlisted.number,
        }
    }
}

impl From<u8> for Kind {
    ghost use Rattle.refusal.specs.Refusals.{number_of};

    // The one kind of a number.
    fn from(number: u8) -> Kind
        ensures { number_of result ≡ number }
    {
        match number {
            1 => Kind::WrongShape,
            2 => Kind::TooLarge,
            3 => Kind::OutOfRange,
            4 => Kind::CheckDiffers,
            5 => Kind::TooLong,
            6 => Kind::UnknownVersion,
            7 => Kind::FanoutDiffers,
            8 => Kind::NoSuchId,
            9 => Kind::RepeatedId,
            10 => Kind::NoneFree,
            11 => Kind::BatchOpen,
            12 => Kind::NoBatch,
            13 => Kind::TablesDisagree,
            14 => Kind::RatioOutOfRange,
            15 => Kind::TooMany,
            16 => Kind::RepeatedLocation,
            17 => Kind::NothingToCut,
            18 => Kind::GapNotZero,
            19 => Kind::WrongBlock,
            20 => Kind::WrongEnd,
            21 => Kind::KeyTooLong,
            22 => Kind::SettingsDiffer,
            23 => Kind::BadMove,
            24 => Kind::NoFace,
            25 => Kind::BadFace,
            26 => Kind::TotalsRefused,
            _ => Kind::Unlisted(Unlisted { number }),
        }
    }
}

#[derive(Clone, Copy, Debug, PartialEq, Eq)]
pub struct Refusal {
    pub kind: Kind,
    pub index: usize,
}

impl Refusal {
    ghost use Rattle.refusal.specs.Refusals.{refusal};

    // A refusal that speaks of no row.
    pub fn of(kind: Kind) -> Refusal
        ensures { result ≡ refusal kind 0 }
    {
        Refusal { kind, index: 0 }
    }

    // A refusal of the row, the update or the slab at an index.
    pub fn at(kind: Kind, index: usize) -> Refusal
        ensures { result ≡ refusal kind index }
    {
        Refusal { kind, index }
    }
}

impl fmt::Display for Refusal {
    fn fmt<W: fmt::Write>(&self, f: &mut fmt::Formatter<W>) -> fmt::Result {
        write!(f, "refusal {} at {}", self.kind.number(), self.index)
    }
}

impl std::error::Error for Refusal {}
