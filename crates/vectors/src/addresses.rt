// Slab sizes, and classes and packed locations at their limits.
use crate::say::Refused;
use address::SlabAddress;
use std::io;

// Each entry of the constant table; what is worked out where a size is hot, in place of reading the table, is that entry.
fn size(rt: &impl Print, slab: usize, entry: u64) -> io::Result<()> {
    print!(rt; "size {slab} {entry}")?;
    if sizes::slab_size(slab) == entry {
        print!(rt; " worked out")?;
    }
    if sizes::is_slab_size(entry) {
        print!(rt; " a slot's length")?;
    }
    println!(rt)
}

fn class(rt: &impl Print, n: u64) -> io::Result<()> {
    print!(rt; "class {n} ")?;
    match sizes::slab_for_size(n) {
        Ok(slab) => println!(rt; "{slab}"),
        Err(r) => println!(rt; "{}", Refused(r)),
    }
}

fn made(rt: &impl Print, slab: usize, slot: usize) -> io::Result<()> {
    print!(rt; "address {slab} {slot} ")?;
    match SlabAddress::from_slab_slot(slab, slot) {
        Ok(_) => println!(rt; "made"),
        Err(r) => println!(rt; "{}", Refused(r)),
    }
}

fn packed(rt: &impl Print, slots: usize, slab: usize, slot: usize) -> io::Result<()> {
    print!(rt; "pack {slots} {slab} {slot} ")?;
    let a = SlabAddress { slab, slot };
    match a.pack(slots) {
        Ok(location) => println!(rt; "{location}"),
        Err(r) => println!(rt; "{}", Refused(r)),
    }
}

fn unpacked(rt: &impl Print, slots: usize, location: u64) -> io::Result<()> {
    print!(rt; "unpack {slots} {location} ")?;
    match SlabAddress::unpack(slots, location) {
        Ok(Some(a)) => println!(rt; "{} {}", a.slab, a.slot),
        Ok(None) => println!(rt; "none"),
        Err(r) => println!(rt; "{}", Refused(r)),
    }
}

// Each on its own side of a limit.
const LENGTHS: [u64; 13] = [
    0,
    59,
    60,
    250,
    251,
    65528,
    65529,
    4294967284,
    4294967285,
    17179869172,
    17179869173,
    18446744073709551604,
    u64::MAX,
];

const SLABS_AND_SLOTS: [(usize, usize); 5] = [
    (0, 0),
    (77, 65535),
    (78, 0),
    (0, 65536),
    (usize::MAX, usize::MAX),
];

const TO_PACK: [(usize, usize, usize); 8] = [
    (65536, 0, 0),
    (65536, 77, 5),
    (8, 77, 7),
    (8, 77, 8),
    (8, 78, 0),
    (0, 0, 0),
    (65537, 0, 0),
    (1, usize::MAX, usize::MAX),
];

const TO_UNPACK: [(usize, u64); 11] = [
    (65536, 0),
    (0, 0),
    (65537, 72057594037927936),
    (65536, 72057594037927936),
    (65536, 5620492334958379013),
    (5, 5620492334958379013),
    (6, 5620492334958379013),
    (65536, 1),
    (65536, 72057594037927935),
    (65536, 5692549928996306944),
    (65536, u64::MAX),
];

pub fn run(rt: &impl Print) -> io::Result<()> {
    for (slab, entry) in sizes::slab_sizes().iter().enumerate() {
        size(rt, slab, *entry)?;
    }
    for n in LENGTHS {
        class(rt, n)?;
    }
    for (slab, slot) in SLABS_AND_SLOTS {
        made(rt, slab, slot)?;
    }
    for (slots, slab, slot) in TO_PACK {
        packed(rt, slots, slab, slot)?;
    }
    for (slots, location) in TO_UNPACK {
        unpacked(rt, slots, location)?;
    }
    Ok(())
}
