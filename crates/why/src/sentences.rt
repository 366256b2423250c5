// What staff read. The ratio is written as it was typed.
use crate::ratio::RatioError;
use reason::{Reason, Standing};
use refusal::{Kind, Refusal};
use std::{fmt, io};

// ---- the reason

// What the sentence of a reason is made of.
#[derive(Clone, Copy)]
pub struct Sentence<'a> {
    pub id: u64,
    pub typed: &'a str,
    pub reason: Result<Reason, Refusal>,
}

// Its parts of an object's standing: where the object is, how many slots are in use, and how many smaller ones are taken.
#[derive(Clone, Copy)]
struct Place(Standing);

#[derive(Clone, Copy)]
struct InUse(Standing);

#[derive(Clone, Copy)]
struct Smaller(Standing);

// Line 0 is none.
#[derive(Clone, Copy)]
struct Line(usize);

impl fmt::Display for Place {
    fn fmt<W: fmt::Write>(&self, f: &mut fmt::Formatter<W>) -> fmt::Result {
        let Standing { slab, slot, .. } = self.0;
        write!(f, "(slab {slab}, slot {slot})")
    }
}

impl fmt::Display for InUse {
    fn fmt<W: fmt::Write>(&self, f: &mut fmt::Formatter<W>) -> fmt::Result {
        match (self.0.live, self.0.tip) {
            (_, 1) => f.write_str("the only slot below the tip is in use"),
            (1, tip) => write!(f, "1 of the {tip} slots below the tip is in use"),
            (live, tip) => write!(f, "{live} of the {tip} slots below the tip are in use"),
        }
    }
}

impl fmt::Display for Smaller {
    fn fmt<W: fmt::Write>(&self, f: &mut fmt::Formatter<W>) -> fmt::Result {
        match self.0.smaller {
            0 => f.write_str("no smaller slot is taken"),
            1 => f.write_str("1 smaller slot is taken"),
            smaller => write!(f, "{smaller} smaller slots are taken"),
        }
    }
}

impl fmt::Display for Line {
    fn fmt<W: fmt::Write>(&self, f: &mut fmt::Formatter<W>) -> fmt::Result {
        match self.0 {
            0 => Ok(()),
            line => write!(f, ", line {line}"),
        }
    }
}

impl fmt::Display for Sentence<'_> {
    fn fmt<W: fmt::Write>(&self, f: &mut fmt::Formatter<W>) -> fmt::Result {
        let Sentence { id, typed, reason } = *self;
        write!(f, "object {id}")?;
        match reason {
            Ok(Reason::NotStored) => f.write_str(": no such stored object"),
            Ok(Reason::FullEnough(standing)) => write!(
                f,
                " {}: stays, since {}, which is full enough (ratio {typed}); {}",
                Place(standing),
                InUse(standing),
                Smaller(standing)
            ),
            Ok(Reason::BeforeLine(standing, line)) => write!(
                f,
                " {}: stays, since its slot is before the line, though {} (ratio {typed}{}); {}",
                Place(standing),
                InUse(standing),
                Line(line),
                Smaller(standing)
            ),
            Ok(Reason::Listed(standing, line)) => write!(
                f,
                " {}: moved, since {} (ratio {typed}{}); {}",
                Place(standing),
                InUse(standing),
                Line(line),
                Smaller(standing)
            ),
            Err(_) => f.write_str(": refused"),
        }
    }
}

// ---- what is wrong with a ratio or a file

pub fn say_no_ratio(rt: &impl Print, error: RatioError<'_>) -> io::Result<()> {
    match error {
        RatioError::Missing => println!(rt;
            "no ratio is given: it stands behind the file, as ratio=0.75"
        ),
        RatioError::NoDecimal(word) => {
            rt.write_all(word)?;
            println!(rt; ": no decimal such as 0.75")
        }
        RatioError::OutOfRange(typed) => println!(rt;
            "{typed} is no fill ratio: it is above 0 and at most 1"
        ),
    }
}

pub fn say_block(rt: &impl Print, refusal: Refusal) -> io::Result<()> {
    staff_files::say_block(
        rt,
        refusal,
        "the file is empty or cut short, could not be read to its end, or has more than the 16383 objects that this program takes; the Rust crate's example why takes any store",
    )
}

pub fn say_row(rt: &impl Print, refusal: Refusal) -> io::Result<()> {
    let why = match refusal.kind {
        Kind::NoSuchId =>
            "its id is 0, or above 16383, the largest that this program takes; the Rust crate's example why takes any store",
        Kind::OutOfRange =>
            "its location is none, or its slot above 4095, the largest that this program takes; the Rust crate's example why takes any store",
        _ => "an earlier row has its location",
    };
    staff_files::say_refusal(rt, "row", refusal, why)
}
