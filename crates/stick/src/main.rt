// The rows of snapshot files, for service staff (requests 2026-01 and 2026-06): `stick FILE ..` writes a line `id collection slab slot key` for each row, and
// then a sentence: how many rows there are, or which block was refused and why. A key is written in quotes, or by its bytes: "icons/lamp", 0x00ff.
//
// A file is read row by row, so that the rows before a damaged block are shown.
#![tactic(auto)]

ghost use Rattle.std.specs.Prelude.{◌≡◌};

use address::SlabAddress;
use refusal::{Kind, Refusal};
use snapshot::Position;
use snapshot_blocks::{BLOCK, Row};
use staff_files::{PATH_MAX, Unread};
use std::env::Env;
use std::rt::Files;
use std::{fmt, io, str};

// The most slots of a slab: a snapshot does not say its store's.
const SLOTS: usize = SlabAddress::MOST_SLOTS;

// The snapshot of 65,535 rows, and no store has more.
fn longest() -> usize
    ensures { 6710784 ≡ result }
{
    13107 * BLOCK
}

// A key as staff read it.
#[derive(Clone, Copy)]
struct Key<'a>(&'a [u8]);

// Whether a key can stand in quotes.
fn is_plain(key: &str) -> bool {
    key.bytes()
        .all(|byte| (b' '..=b'~').contains(&byte) && byte != b'"')
}

impl fmt::Display for Key<'_> {
    fn fmt<W: fmt::Write>(&self, f: &mut fmt::Formatter<W>) -> fmt::Result {
        if let Ok(key) = str::from_utf8(self.0)
            && is_plain(key)
        {
            return write!(f, "\"{key}\"");
        }
        f.write_str("0x")?;
        for byte in self.0 {
            write!(f, "{byte:02x}")?;
        }
        Ok(())
    }
}

fn say_slot(rt: &impl Print, location: u64) -> io::Result<()> {
    match SlabAddress::unpack(SLOTS, location) {
        Ok(Some(address)) => print!(rt; "{} {}", address.slab, address.slot),
        Ok(None) => print!(rt; "none none"),
        Err(_) => print!(rt; "none none"),
    }
}

// The key that stands at a place of the file.
fn key_of(file: &[u8], row: Row) -> Option<Key<'_>> {
    let key = file.get(row.key..)?.get(..row.length)?;
    Some(Key(key))
}

fn say_row(rt: &impl Print, file: &[u8], row: Row) -> io::Result<()> {
    print!(rt; "{} {} ", row.id, row.collection)?;
    say_slot(rt, row.location)?;
    match key_of(file, row) {
        Some(key) => println!(rt; " {key}"),
        None => println!(rt; " "),
    }
}

fn say_refusal(rt: &impl Print, refusal: Refusal) -> io::Result<()> {
    staff_files::say_block(
        rt,
        refusal,
        "the file is empty, or no whole number of blocks",
    )
}

// The rows from the start; no file has more than its blocks have room for.
fn say_rows(rt: &impl Print, file: &[u8]) -> io::Result<()> {
    let mut at = Position::start();
    for rows in 0..file.len() {
        match at.step(file) {
            Ok(Some((row, next))) => {
                say_row(rt, file, row)?;
                at = next;
            }
            Ok(None) => return println!(rt; "rows: {rows}; every block is right"),
            Err(refusal) => return say_refusal(rt, refusal),
        }
    }
    say_refusal(rt, Refusal::of(Kind::WrongShape))
}

fn say_file<R: Files + Print + Eprint + AllocGlobal>(rt: &R, name: &[u8]) -> io::Result<()> {
    rt.write_all(name)?;
    println!(rt; ":")?;
    match staff_files::load(rt, name, longest()) {
        Ok(file) => say_rows(rt, &file),
        Err(Unread::Unopened) => println!(rt; "it cannot be read"),
        Err(Unread::TooLong) => println!(rt;
            "it is longer than {} bytes: no store's snapshot is",
            longest()
        ),
        Err(Unread::CutShort) => println!(rt; "it could not be read to its end"),
        Err(Unread::Failed(error)) => Err(error),
    }
}

fn say_word<R: Files + Env + Print + Eprint + AllocGlobal>(rt: &R, i: usize) -> io::Result<()> {
    let mut space = [0; PATH_MAX];
    say_file(rt, staff_files::word(rt, i, &mut space))
}

fn main(rt: HostRuntime) -> io::Result<()> {
    let count = staff_files::word_count(&rt);
    if count < 2 {
        println!(rt;
            "stick FILE ..: the rows of snapshot files, a line each: id collection slab slot key"
        )?;
    }
    for i in 1..count {
        say_word(&rt, i)?;
    }
    Ok(())
}
