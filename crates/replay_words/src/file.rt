// A file, whole.
ghost use Rattle.std.specs.Prelude.{◌≡◌, ◌≤◌, length, IfOk};
ghost use Rattle.replay_words.specs.Space.{zeros};

use std::io::Read;
use std::rt::Files;
use std::{fs, io, str};

// Longer than any file. Of a longer one the end would not be read, and the counts of calls would show it.
const LONGEST: usize = 1048576;

// Its length is said besides, so that a caller need not open the definition of so long a list.
pub fn space() -> [u8; LONGEST]
    ensures value { result ≡ zeros }
    ensures len { 1048576 ≡ length result }
{
    [0; LONGEST]
}

// A name that is no text is no file's here, since std names files by text alone.
fn open<R: Files>(rt: &R, name: &[u8]) -> io::Result<R::File> {
    match str::from_utf8(name) {
        Ok(path) => fs::open(rt, path),
        Err(_) => Err(io::Error::from(io::ErrorKind::InvalidInput)),
    }
}

// Reads until the space is full or the file ends, and answers how many bytes it has. A `while`, since only a read says how far it came.
fn read_full(file: &mut impl Read, space: &mut [u8]) -> io::Result<usize>
    ensures { IfOk result (λ n. n ≤ length space.new) }
{
    let mut done = 0;
    while done < space.len() {
        let n = file.read(&mut space[done..])?;
        if n == 0 {
            break;
        }
        done += n;
    }
    Ok(done)
}

// Reads the file into the space, and answers how many bytes it has; 0 where it cannot be opened, which standard error says. Which bytes these
// are no contract can say; an error of the read leaves the space as long as it was.
pub fn load(rt: &(impl Files + Eprint), name: &[u8], space: &mut [u8]) -> io::Result<usize>
    ensures count { IfOk result (λ n. n ≤ length space.new) }
    ensures kept { length space.new ≡ length space.old }
{
    match open(rt, name) {
        Ok(mut file) => read_full(&mut file, space),
        Err(error) => {
            eprintln!(rt; "{}: {error}", name.escape_ascii())?;
            Ok(0)
        }
    }
}
