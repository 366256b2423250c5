// A file that is read whole, into memory of the length that it may have.
ghost use Rattle.std.specs.Prelude.{◌≡◌, ◌≤◌, ◌<◌, ◌+◌, ◌-◌, ◌^◌, ◌++◌, take, vec_len, IsTrue, IfOk, IfSome, OnOk};
ghost use Rattle.std.specs.Io.KnownBytes.{IsAtEnd};

use std::alloc::AllocError;
use std::fs::File;
use std::io::{ErrorKind, Read};
use std::rt::Files;
use std::{io, str};

// Why a file's bytes are not there. Where it cannot be opened, standard error has said why.
#[derive(Drop)]
pub enum Unread {
    Unopened,
    TooLong,
    CutShort,
    Failed(io::Error),
}

impl From<io::Error> for Unread {
    fn from(error: io::Error) -> Unread {
        Unread::Failed(error)
    }
}

impl From<AllocError> for Unread {
    fn from(error: AllocError) -> Unread {
        Unread::Failed(io::Error::from(error))
    }
}

// A path of std is UTF-8: a file of any other name cannot be read.
fn open<R: Files>(rt: &R, name: &[u8]) -> io::Result<R::File> {
    match str::from_utf8(name) {
        Ok(path) => File::open(rt, path),
        Err(_) => Err(io::Error::new(ErrorKind::InvalidFilename, "its name is no UTF-8")),
    }
}

// A line of standard error: a file's name, and why it cannot be opened, as C says it, without C's number.
fn say_error(rt: &(impl Eprint + AllocGlobal), name: &[u8], error: io::Error) -> io::Result<()> {
    match str::from_utf8(name) {
        Ok(name) => eprint!(rt; "{name}: ")?,
        Err(_) => eprint!(rt; "{}: ", name.escape_ascii())?,
    }
    match format!(in rt.alloc(); "{error}") {
        Ok(error) => match error.as_str().split_once(" (os error ") {
            Some((words, _)) => eprintln!(rt; "{words}"),
            None => eprintln!(rt; "{error}"),
        },
        // Without memory for the cut the number stays.
        Err(_) => eprintln!(rt; "{error}"),
    }
}

// Adds all bytes of a file that has at most so many, and one more of a longer one.
fn fill<R: Read>(file: &mut R, most: usize, bytes: &mut Vec<u8>) -> io::Result<usize>
    ensures { most < 2 ^ 64 - 1 → OnOk result (IfSome (R.remaining file.old) (λ xs. bytes.new.items ≡ bytes.old.items ++ take (most + 1) xs)) }
{
    let room = most.saturating_add(1);
    file.take(room as u64).read_to_end(bytes)
}

// Whether nothing is left to be read: a read that fails leaves something, as at a bad place of the stick.
fn is_at_end<R: Read>(file: &mut R) -> bool
    ensures { IsTrue result → IsAtEnd (R.remaining file.new) }
{
    let mut more = [0; 1];
    matches!(file.read(&mut more), Ok(0))
}

// All bytes of a file that has at most so many; there is room for them, and for one more, before the first read. Where the file ends it is asked once more: one that
// goes on, as a terminal can, is not whole, and one that ends after a read that failed is.
fn read<R: Read>(rt: &impl AllocGlobal, file: &mut R, most: usize) -> Result<Vec<u8>, Unread>
    ensures count { IfOk result (λ bytes. vec_len bytes ≤ most) }
    ensures end { OnOk result (IsAtEnd (R.remaining file.new)) }
{
    let mut bytes = Vec::with_capacity(rt.alloc(), most.saturating_add(1))?;
    let _ = fill(file, most, &mut bytes);
    if most < bytes.len() {
        Err(Unread::TooLong)
    } else if is_at_end(file) {
        Ok(bytes)
    } else {
        Err(Unread::CutShort)
    }
}

// The bytes of the file of this name, which may have so many.
pub fn load<R: Files + Eprint + AllocGlobal>(
    rt: &R,
    name: &[u8],
    most: usize,
) -> Result<Vec<u8>, Unread>
    ensures { IfOk result (λ bytes. vec_len bytes ≤ most) }
{
    match open(rt, name) {
        Ok(mut file) => read(rt, &mut file, most),
        Err(error) => {
            say_error(rt, name, error)?;
            Err(Unread::Unopened)
        }
    }
}

#[cfg(test)]
mod tests {
    use super::*;

    #[test]
    fn there_is_memory(rt: HostRuntime) {
        assert!(rt;
            matches!(load(&rt, b"/dev/null", 512), Ok(bytes) if bytes.is_empty()),
            "an empty file is read"
        );
    }
}
