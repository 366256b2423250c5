// Frames: document 01's three bytes in a slot of 64, the edges of each width of the length field, damaged slots, and slots with rubbish
// between object and frame.
ghost use Rattle.std.specs.Prelude.{◌≡◌, length};

use crate::say::{Hex, Refused};
use frame::Slab;
use refusal::Refusal;
use std::io;

fn say_written(rt: &impl Print, w: Result<(), Refusal>) -> io::Result<()> {
    match w {
        Ok(()) => print!(rt; " done"),
        Err(r) => print!(rt; " {}", Refused(r)),
    }
}

fn say_verdict(rt: &impl Print, v: Result<usize, Refusal>) -> io::Result<()> {
    match v {
        Ok(n) => print!(rt; " {n}"),
        Err(r) => print!(rt; " {}", Refused(r)),
    }
}

// The longest slot here.
const LONGEST: usize = 98304;

// Space for a slot or an object; who has it is not inlined, so that no more than two stand on the stack at once. The length is all that a caller has to know, and a check
// that knows more of so long an array takes longer.
fn space() -> [u8; LONGEST]
    ensures { 98304 ≡ length result }
{
    [0; LONGEST]
}

// A pattern that no two neighbours share.
fn fill(part: &mut [u8]) {
    for (i, byte) in part.iter_mut().enumerate() {
        *byte = (i % 251) as u8;
    }
}

// An object of n bytes is written into a slot of so many old ones, and read back.
#[inline(never)]
fn edge(rt: &impl Print, size: usize, n: usize) -> io::Result<()> {
    let mut slots = space();
    let mut objects = space();
    let slot = &mut slots[..size.min(LONGEST)];
    let object = &mut objects[..n.min(LONGEST)];
    fill(slot);
    fill(object);
    print!(rt; "frame {size} {n}")?;
    say_written(rt, Slab::write(slot, object))?;
    print!(rt; " {:08x}", crc32::hash(slot))?;
    say_verdict(rt, Slab::verdict(slot))?;
    println!(rt; " {:08x}", crc32::hash(Slab::read(slot)))
}

fn flip(slot: &mut [u8], at: usize) {
    if let Some(byte) = slot.get_mut(at) {
        *byte ^= 1;
    }
}

// One byte of a written slot is changed.
fn damaged(rt: &impl Print, at: usize) -> io::Result<()> {
    let mut slot = [0; 64];
    let _ = Slab::write(&mut slot, b"face");
    flip(&mut slot, at);
    print!(rt; "damaged 64 {at}")?;
    say_verdict(rt, Slab::verdict(&slot))?;
    println!(rt)
}

// A slot whose length field says n, signed all the same.
#[inline(never)]
fn stored(rt: &impl Print, size: usize, start: usize, end: usize, n: u64) -> io::Result<()> {
    let mut slots = space();
    let slot = &mut slots[..size.min(LONGEST)];
    fill(slot);
    little_endian::put_at(slot, start, end, n);
    seal::write(slot);
    print!(rt; "stored {size} {n}")?;
    say_verdict(rt, Slab::verdict(slot))?;
    println!(rt)
}

// A written slot with one byte changed, signed all the same.
#[inline(never)]
fn gap(rt: &impl Print, size: usize, n: usize, at: usize) -> io::Result<()> {
    let mut slots = space();
    let mut objects = space();
    let slot = &mut slots[..size.min(LONGEST)];
    let object = &mut objects[..n.min(LONGEST)];
    fill(object);
    let _ = Slab::write(slot, object);
    flip(slot, at);
    seal::write(slot);
    print!(rt; "gap {size} {n} {at}")?;
    say_verdict(rt, Slab::verdict(slot))?;
    println!(rt)
}

// Behind three bytes the gap's first place, one in its middle and its last; the first of a whole room; the one place behind the
// longest object but one; and the object's own last byte, which may be anything.
fn gaps(rt: &impl Print, size: usize, middle: usize, last: usize) -> io::Result<()> {
    for (n, at) in [(3, 3), (3, middle), (3, last), (0, 0), (last, last), (3, 2)] {
        gap(rt, size, n, at)?;
    }
    Ok(())
}

fn three_bytes(rt: &impl Print) -> io::Result<()> {
    let mut slot = [255; 64];
    let _ = Slab::write(&mut slot, &[1, 2, 3]);
    println!(rt; "three-bytes {}", Hex(&slot))
}

// A slot's length, and an object's.
const EDGES: [(usize, usize); 18] = [
    (64, 0),
    (64, 59),
    (64, 60),
    (224, 219),
    (224, 220),
    (256, 250),
    (256, 251),
    (57344, 57338),
    (57344, 57339),
    (65536, 65528),
    (65536, 65529),
    (98304, 98296),
    (98304, 98297),
    (0, 0),
    (63, 0),
    (65, 0),
    (65535, 0),
    (81920, 0),
];

// A slot's length, where its length field starts and ends, and what that says.
const LENGTH_FIELDS: [(usize, usize, usize, u64); 10] = [
    (64, 59, 60, 59),
    (64, 59, 60, 60),
    (64, 59, 60, 255),
    (256, 250, 252, 250),
    (256, 250, 252, 251),
    (65536, 65528, 65532, 65528),
    (65536, 65528, 65532, 65529),
    (65536, 65528, 65532, 4294967295),
    (64, 59, 60, 58),
    (64, 59, 60, 0),
];

pub fn run(rt: &impl Print) -> io::Result<()> {
    three_bytes(rt)?;
    for (size, n) in EDGES {
        edge(rt, size, n)?;
    }
    for at in [0, 30, 59, 63] {
        damaged(rt, at)?;
    }
    for (size, start, end, n) in LENGTH_FIELDS {
        stored(rt, size, start, end, n)?;
    }
    gaps(rt, 64, 30, 58)?;
    gaps(rt, 224, 100, 218)?;
    gaps(rt, 256, 128, 249)?;
    gaps(rt, 57344, 30001, 57337)?;
    gaps(rt, 65536, 32768, 65527)?;
    gaps(rt, 98304, 65535, 98295)
}
