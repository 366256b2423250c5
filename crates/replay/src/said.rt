// The bytes that a line speaks of: COUNT of them, and WHERE. Below 65,536 that says a ramp: byte i is WHERE + i × (WHERE / 256), modulo 256.
// Else they stand in the line itself, from WHERE less 65,536 on.
ghost use Rattle.std.specs.Prelude.{◌≡◌, ◌≤◌, length};

use replay_words::line::Line;

const IN_THE_LINE: u64 = 65536;

// The most bytes that a line speaks of.
const MOST: usize = 98304;

// Space for them. The length is all that a caller has to know, and a check that knows more of so long an array takes longer.
pub fn space() -> [u8; MOST]
    ensures { 98304 ≡ length result }
{
    [0; MOST]
}

// The first n, or all where there are fewer; the last n likewise.
pub fn first(s: &mut [u8], n: usize) -> &mut [u8] {
    let n = n.min(s.len());
    &mut s[..n]
}

pub fn last(s: &mut [u8], n: usize) -> &mut [u8] {
    let at = s.len().saturating_sub(n);
    &mut s[at..]
}

fn put_ramp(out: &mut [u8], seed: u8, step: u8) {
    let mut b = seed;
    for slot in out {
        *slot = b;
        b = b.wrapping_add(step);
    }
}

// Zeros where there are fewer.
fn put_copy(out: &mut [u8], from: &[u8]) {
    let n = out.len().min(from.len());
    out[..n].copy_from_slice(&from[..n]);
    out[n..].fill(0);
}

// Fills `out`.
pub fn put(line: Line, whence: u64, out: &mut [u8]) {
    match whence.checked_sub(IN_THE_LINE) {
        Some(at) => {
            let at = line.bytes.len().min(at as usize);
            put_copy(out, &line.bytes[at..]);
        }
        None => put_ramp(out, (whence % 256) as u8, (whence / 256) as u8),
    }
}

// The bytes of which word k says the COUNT and the next the WHERE, in the first part of the space.
pub fn bytes<'a>(line: Line, k: usize, space: &'a mut [u8]) -> &'a mut [u8]
    requires { k ≤ 16 }
{
    let s = first(space, line.word(k) as usize);
    put(line, line.word(k + 1), s);
    s
}
