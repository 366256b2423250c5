// What staff read of a file that is refused.
use refusal::{Kind, Refusal};
use std::io;

// A part is a block or a row.
pub fn say_refusal(rt: &impl Print, part: &str, refusal: Refusal, why: &str) -> io::Result<()> {
    let index = refusal.index;
    let number = refusal.kind.number();
    println!(rt; "{part} {index} is refused with {number}: {why}")
}

// Each program says itself which files have the wrong shape for it.
pub fn say_block(rt: &impl Print, refusal: Refusal, wrong_shape: &str) -> io::Result<()> {
    let why = match refusal.kind {
        Kind::WrongShape => wrong_shape,
        Kind::CheckDiffers => "its check differs: the file was damaged",
        Kind::UnknownVersion => "its version is neither 1 nor 2",
        _ => "its number, row count, padding, row order or version, or a key in it, is wrong",
    };
    say_refusal(rt, "block", refusal, why)
}
