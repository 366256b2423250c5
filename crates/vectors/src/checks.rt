// CRC-32 of published inputs.
use std::io;

fn check(rt: &impl Print, name: &str, bytes: &[u8]) -> io::Result<()> {
    println!(rt; "crc32 {name} {:08x}", crc32::hash(bytes))
}

// The same input in two pieces.
fn pieces(rt: &impl Print, name: &str, first: &[u8], second: &[u8]) -> io::Result<()> {
    let register = crc32::update(crc32::update(crc32::START, first), second);
    println!(rt; "crc32 {name} {:08x}", crc32::finish(register))
}

pub fn run(rt: &impl Print) -> io::Result<()> {
    check(rt, "empty", &[])?;
    check(rt, "a", b"a")?;
    check(rt, "abc", b"abc")?;
    check(rt, "message-digest", b"message digest")?;
    check(rt, "a-to-z", b"abcdefghijklmnopqrstuvwxyz")?;
    check(
        rt,
        "A-to-9",
        b"ABCDEFGHIJKLMNOPQRSTUVWXYZabcdefghijklmnopqrstuvwxyz0123456789",
    )?;
    check(
        rt,
        "eight-times-1234567890",
        b"12345678901234567890123456789012345678901234567890123456789012345678901234567890",
    )?;
    check(rt, "123456789", b"123456789")?;
    check(rt, "fox", b"The quick brown fox jumps over the lazy dog")?;
    check(rt, "32-zero-bytes", &[0; 32])?;
    check(rt, "32-ff-bytes", &[255; 32])?;
    let ramp = [
        0, 1, 2, 3, 4, 5, 6, 7, 8, 9, 10, 11, 12, 13, 14, 15, 16, 17, 18, 19, 20, 21, 22, 23, 24,
        25, 26, 27, 28, 29, 30, 31,
    ];
    check(rt, "bytes-0-to-31", &ramp)?;
    pieces(rt, "1234+56789", b"1234", b"56789")?;
    pieces(rt, "empty+123456789", &[], b"123456789")
}
