// Settings cookies.
use crate::say::{Hex, Refused};
use refusal::Refusal;
use settings::PersistentSettings;
use std::io;

const LENGTH: usize = 64;

fn say_read(rt: &impl Print, s: Result<PersistentSettings, Refusal>) -> io::Result<()> {
    match s {
        Ok(settings) => print!(rt; " {}", settings.leaf_fanout()),
        Err(r) => print!(rt; " {}", Refused(r)),
    }
}

fn say_verified(rt: &impl Print, v: Result<(), Refusal>) -> io::Result<()> {
    match v {
        Ok(()) => print!(rt; " agrees"),
        Err(r) => print!(rt; " {}", Refused(r)),
    }
}

fn cookie(rt: &impl Print, leaf_fanout: u64) -> io::Result<()> {
    let mut bytes = [255; LENGTH];
    let _ = PersistentSettings::serialize(leaf_fanout, &mut bytes);
    print!(rt; "cookie {leaf_fanout} {}", Hex(&bytes))?;
    say_read(rt, PersistentSettings::deserialize(&bytes))?;
    say_verified(rt, PersistentSettings::verify(&bytes, leaf_fanout))?;
    say_verified(rt, PersistentSettings::verify(&bytes, 1024))?;
    println!(rt)
}

// A cookie is written to what is lent, and read from it.
fn lent(rt: &impl Print, space: &mut [u8]) -> io::Result<()> {
    print!(rt; "cookie-of {}", space.len())?;
    match PersistentSettings::serialize(7, space) {
        Ok(()) => print!(rt; " done"),
        Err(r) => print!(rt; " {}", Refused(r)),
    }?;
    say_read(rt, PersistentSettings::deserialize(space))?;
    println!(rt)
}

// The same where a cookie stands there already, with bytes after it.
fn longer(rt: &impl Print, space: &mut [u8]) -> io::Result<()> {
    if let Some(cookie) = space.get_mut(..LENGTH) {
        let _ = PersistentSettings::serialize(7, cookie);
    }
    lent(rt, space)
}

// A good cookie with a number put into it.
fn with_number(start: usize, end: usize, n: u64) -> [u8; LENGTH] {
    let mut bytes = [0; LENGTH];
    let _ = PersistentSettings::serialize(1024, &mut bytes);
    little_endian::put_at(&mut bytes, start, end, n);
    bytes
}

fn say_changed(rt: &impl Print, cookie: &[u8], start: usize, n: u64) -> io::Result<()> {
    print!(rt; "cookie-with {start} {n}")?;
    say_verified(rt, PersistentSettings::verify(cookie, 1024))?;
    println!(rt)
}

fn changed(rt: &impl Print, start: usize, end: usize, n: u64) -> io::Result<()> {
    say_changed(rt, &with_number(start, end, n), start, n)
}

// The same, and the cookie is signed again.
fn signed(rt: &impl Print, start: usize, end: usize, n: u64) -> io::Result<()> {
    let mut bytes = with_number(start, end, n);
    seal::write(&mut bytes);
    say_changed(rt, &bytes, start, n)
}

pub fn run(rt: &impl Print) -> io::Result<()> {
    for leaf_fanout in [0, 1024, u64::MAX] {
        cookie(rt, leaf_fanout)?;
    }
    lent(rt, &mut [])?;
    lent(rt, &mut [0; 63])?;
    lent(rt, &mut [0; 64])?;
    longer(rt, &mut [0; 65])?;
    longer(rt, &mut [0; 80])?;
    signed(rt, 0, 2, 1)?;
    signed(rt, 0, 2, 2)?;
    signed(rt, 0, 2, 257)?;
    changed(rt, 0, 2, 2)?;
    signed(rt, 2, 10, 1025)?;
    signed(rt, 10, 11, 9)?;
    signed(rt, 59, 60, 9)?;
    changed(rt, 59, 60, 9)
}
