// What a line asks, and whether the call that it says answers as it says.
use crate::{numbers, slots, snapshots};
use replay_words::line::Line;

#[derive(Clone, Copy)]
enum Kind {
    Class,
    Pack,
    Unpack,
    Cutoff,
    Crc,
    Frame,
    Unframe,
    Cookie,
    Uncookie,
    Step,
    Read,
}

// The number is no kind's.
#[derive(Clone, Copy)]
struct NoKind;

impl TryFrom<u64> for Kind {
    type Error = NoKind;

    fn try_from(number: u64) -> Result<Kind, NoKind> {
        match number {
            1 => Ok(Kind::Class),
            2 => Ok(Kind::Pack),
            3 => Ok(Kind::Unpack),
            4 => Ok(Kind::Cutoff),
            5 => Ok(Kind::Crc),
            6 => Ok(Kind::Frame),
            7 => Ok(Kind::Unframe),
            8 => Ok(Kind::Cookie),
            9 => Ok(Kind::Uncookie),
            10 => Ok(Kind::Step),
            11 => Ok(Kind::Read),
            _ => Err(NoKind),
        }
    }
}

impl Kind {
    fn agrees(self, line: Line) -> bool {
        match self {
            Kind::Class => numbers::class(line),
            Kind::Pack => numbers::pack(line),
            Kind::Unpack => numbers::unpack(line),
            Kind::Cutoff => numbers::cutoff(line),
            Kind::Crc => slots::crc(line),
            Kind::Frame => slots::frame(line),
            Kind::Unframe => slots::unframe(line),
            Kind::Cookie => slots::cookie(line),
            Kind::Uncookie => slots::uncookie(line),
            Kind::Step => snapshots::step(line),
            Kind::Read => snapshots::read(line),
        }
    }
}

pub fn agrees(line: Line) -> bool {
    match Kind::try_from(line.kind()) {
        Ok(kind) => kind.agrees(line),
        Err(NoKind) => false,
    }
}
